// The three demands, said of the real calls: theorems over any run of them, and no code. What they say is in specs/.
#![tactic(auto)]
