// The laws of the queue's slots, in specs/ and proofs/: the code that moves the slots is the manager's.
#![tactic(auto)]
