// The four units of number, a shape, the four operations on a word, and a line.
#![tactic(auto)]

ghost use Rattle.std.specs.Prelude.{◌≡◌};
ghost use Rattle.words.specs.Units.{block_of};
ghost use Rattle.words.specs.Operations.{is_load, apply_of, perform_of};
ghost use Rattle.words.specs.Lines.{invalid, holds_of};

// The number of a lane (000: knum).
#[derive(Clone, Copy, PartialEq, Eq)]
pub struct LaneNo(pub u8);

// The number of a block of main memory (000: blknum).
#[derive(Clone, Copy, PartialEq, Eq)]
pub struct BlockNo(pub u8);

// The number of a line in a lane's cache (000: kloc).
#[derive(Clone, Copy, PartialEq, Eq)]
pub struct LineNo(pub u8);

// The number of a word of main memory.
#[derive(Clone, Copy, PartialEq, Eq)]
pub struct WordNo(pub u8);

impl WordNo {
    // The block that the word belongs to.
    pub fn block(self) -> BlockNo
        ensures { result ≡ block_of self }
    {
        BlockNo(self.0 / 4)
    }
}

// What an opening fixes: lanes n, lines per lane c, blocks m, and the limit L of services under way at a time.
#[derive(Clone, Copy)]
pub struct Shape {
    pub n: u8,
    pub c: u8,
    pub m: u8,
    pub limit: u8,
}

// An operation of a lane, with its v where there is one.
#[derive(Clone, Copy)]
pub enum Op {
    Load,
    Store(u32),
    Exchange(u32),
    Add(u32),
}

// What an operation makes of a word: the word after it and the value it gives.
#[derive(Clone, Copy)]
pub struct Effect {
    pub word: u32,
    pub value: u32,
}

impl Op {
    // Whether the operation is load.
    pub fn is_load(self) -> bool
        ensures { result ≡ is_load self }
    {
        matches!(self, Op::Load)
    }

    // The operation done on one word.
    pub fn apply(self, former: u32) -> Effect
        ensures { result ≡ apply_of self former }
    {
        match self {
            Op::Load => Effect {
                word: former,
                value: former,
            },
            Op::Store(v) => Effect { word: v, value: v },
            Op::Exchange(v) => Effect {
                word: v,
                value: former,
            },
            Op::Add(v) => Effect {
                word: former.wrapping_add(v),
                value: former,
            },
        }
    }
}

// A line of a lane's cache: VALID, PRIVATE (the line is modified, and no other lane has the block), the block and its words.
// VALID is a flag and the line no Option, since resetting it changes nothing else (`invalid`): block and words stay where they are.
#[derive(Clone, Copy)]
pub struct Line {
    pub valid: bool,
    pub private: bool,
    pub block: BlockNo,
    pub words: [u32; 4],
}

// What an operation makes of a line: the value it gives and the line after it.
#[derive(Clone, Copy)]
pub struct Performed {
    pub value: u32,
    pub line: Line,
}

impl Line {
    // The line with VALID reset, and nothing else.
    pub fn invalidated(self) -> Line
        ensures { result ≡ invalid self }
    {
        Line {
            valid: false,
            ..self
        }
    }

    // Whether the line is valid and has block a.
    pub fn holds(self, a: BlockNo) -> bool
        ensures { result ≡ holds_of self a }
    {
        self.valid && self.block == a
    }

    // The operation done on the line's word at w's place.
    pub fn perform(self, op: Op, w: WordNo) -> Performed
        ensures { result ≡ perform_of self op w }
    {
        let i = (w.0 % 4) as usize;
        let Effect { word, value } = op.apply(self.words[i]);
        let mut line = self;
        line.words[i] = word;
        Performed { value, line }
    }
}
