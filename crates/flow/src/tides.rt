// What the waves go by, and what they change.
ghost use Rattle.flow.specs.Copies.{end_in};
ghost use Rattle.flow.specs.Chains.{Index};
ghost use Rattle.flow.specs.Sends.{Chart};

// The copy of the links, which have no cycle and of which no two are the same, and the chains of both ends, which are an index of it. What a wave
// reads of the survey, it reads here.
#[derive(Drop)]
pub struct Channels<'a> {
    pub n: usize,
    pub e: usize,
    pub ends: &'a [u8],
    pub chains: &'a [u16],
    ghost chart: { Chart n e ends.now },
    ghost forth: { Index n e 0 (end_in ends.now 0) chains.now },
    ghost back: { Index n e 1 (end_in ends.now 1) chains.now },
}

// The state, which is amounts, excess and lack, and the ways, which go by the amounts. The lists stand elsewhere, so each clause `same` says that
// they are the ones that were lent.
// Kept: excess and lack are two lists, since they are the lists plus and minus that `heaviest` is lent (its clause Heavy).
#[derive(Drop)]
pub struct Tide<'a> {
    pub amounts: &'a mut [u64],
    pub excess: &'a mut [u64],
    pub lack: &'a mut [u64],
    pub ways: &'a mut [u64],
}
