// A set of the records 0 to 255 as four words, one bit a record, and the two such maps of a queue or of one request. A map is lent
// to whoever looks at it or changes it.
#![tactic(auto)]

ghost use Rattle.std.specs.Prelude.{◌≤◌, ◌<◌, ◌≡◌, [], ◌∷◌, length, take};
ghost use Rattle.rules.specs.Lists.{some};
ghost use Rattle.rules.specs.Clash.{how_many};
ghost use Rattle.rules.specs.Request.{requested};
ghost use Rattle.rules.specs.Scan.{clear_by};
ghost use Rattle.maps.specs.Maps.{maps_of, in_map, clash_in, Empty, Grown, Without, Union, ClashBits, LowestBit, BitsCounted, IsLowest};

// The map of no record.
pub fn none() -> [u64; 4]
    ensures { Empty result }
{
    [0; 4]
}

// Whether record r is in the map.
fn has(map: &[u64; 4], r: u8) -> bool
    ensures { result ≡ in_map map.now r }
{
    (map[(r / 64) as usize] >> (r % 64)) & 1 == 1
}

// Adds record r to the map.
pub fn put(map: &mut [u64; 4], r: u8)
    ensures { Grown map.old (r ∷ []) map.new }
{
    let i = (r / 64) as usize;
    map[i] |= 1u64 << (r % 64);
}

// Takes record r out of the map: its bit is set and then flipped.
pub fn remove(map: &mut [u64; 4], r: u8)
    ensures { Without map.old r map.new }
{
    let i = (r / 64) as usize;
    let bit = 1u64 << (r % 64);
    map[i] = (map[i] | bit) ^ bit;
}

// Adds the records of a lent list to the map.
pub fn add_each(map: &mut [u64; 4], list: &[u8])
    ensures { Grown map.old list.now map.new }
{
    for &r in list {
        put(map, r);
    }
}

// Whether one of the records of a lent list is in the map.
pub fn hits(map: &[u64; 4], list: &[u8]) -> bool
    ensures { result ≡ some (in_map map.now) list.now }
{
    list.iter().any(|&r| has(map, r))
}

// The bits of one word on which a request clashes: it reads and others write, or it writes and others write or read.
fn clash_bits(reads: u64, writes: u64, written: u64, read: u64) -> u64
    ensures { ClashBits reads writes written read result }
{
    (reads & written) | (writes & (written | read))
}

// The lowest bit of a word that is not 0. A word that is a parameter is known to be one, which an element of an array is not.
fn low_bit(w: u64) -> u8
    requires { 0 < w }
    ensures { LowestBit w result }
{
    u64::trailing_zeros(w) as u8
}

// How many bits of a word are set.
fn bits(w: u64) -> u32
    ensures { BitsCounted w result }
{
    u64::count_ones(w)
}

// How many records the map has.
pub fn ones(map: [u64; 4]) -> u16
    ensures { result ≡ how_many (in_map map) 256 }
{
    (bits(map[0]) + bits(map[1]) + bits(map[2]) + bits(map[3])) as u16
}

// Adds the records of another map.
pub fn join(map: &mut [u64; 4], other: &[u64; 4])
    ensures { Union map.old other.now map.new }
{
    for i in 0..4 {
        map[i] |= other[i];
    }
}

// The records that are written and those that are read: by the entries of a queue, or by one request.
#[derive(Clone, Copy)]
pub struct Maps {
    pub written: [u64; 4],
    pub read: [u64; 4],
}

impl Maps {
    // The maps of no entry.
    pub fn none() -> Maps
        ensures { Empty result.written × Empty result.read }
    {
        let written = none();
        let read = none();
        Maps { written, read }
    }

    // Adds what one more reads and writes.
    pub fn add(&mut self, reads: &[u8], writes: &[u8])
        ensures written { Grown self.old.written writes.now self.new.written }
        ensures read { Grown self.old.read reads.now self.new.read }
    {
        add_each(&mut self.written, writes);
        add_each(&mut self.read, reads);
    }

    // Adds the records of others.
    pub fn join(&mut self, other: &Maps)
        ensures written { Union self.old.written other.now.written self.new.written }
        ensures read { Union self.old.read other.now.read self.new.read }
    {
        join(&mut self.written, &other.written);
        join(&mut self.read, &other.read);
    }

    // Whether a request with these lists conflicts with none of those in the maps: no read is in the map of written records, and
    // no write is in either.
    #[tactic(auto, unfolding(rules::specs::Scan::clear_by))]
    pub fn clear(&self, reads: &[u8], writes: &[u8]) -> bool
        ensures { result ≡ clear_by (maps_of self.now) (requested 0 0 0 reads.now writes.now) }
    {
        !hits(&self.written, reads) && !hits(&self.written, writes) && !hits(&self.read, writes)
    }

    // The lowest record on which a request clashes with those ahead of it, by its own maps and theirs: trailing zeros of the first
    // word that is not 0.
    pub fn lowest_clash(&self, ahead: &Maps) -> Option<u8>
        ensures { IsLowest (clash_in self.now.read self.now.written ahead.now.written ahead.now.read) result }
    {
        for i in 0..4u8 {
            let k = i as usize;
            let w = clash_bits(
                self.read[k],
                self.written[k],
                ahead.written[k],
                ahead.read[k],
            );
            if 0 < w {
                return Some(i * 64 + low_bit(w));
            }
        }
        None
    }
}
