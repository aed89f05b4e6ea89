// Opening: a store of n lanes of c lines and m blocks, with a limit L of services. The definitions are store's (store/specs/Opening.antt).
// open is open to others and has no requires; the other functions are for the crates above.
#![tactic(auto)]

ghost use Rattle.std.specs.Prelude.{◌≡◌};
ghost use Rattle.store.specs.Opening.{bad_shape, bad_limit, blank_line, blank_lane, blank_block, fresh_of, blank_store, opened_of, open_of};

use answers::{Answer, Refusal};
use lanes::{Lane, Waiting};
use queues::{DownKind, DownMessage, DownQueue, ReturnKind, ReturnMessage, ReturnQueue};
use store::{Block, Control, Outcome, SLOTS, Store};
use words::{BlockNo, Line, LineNo, Shape};

// Whether n, c or m is outside its range.
#[tactic(auto, unfolding(store::specs::Opening::bad_shape, words::specs::Folds::any_of))]
pub fn bad_shape(shape: Shape) -> bool
    ensures { result ≡ bad_shape shape }
{
    let Shape { n, c, m, .. } = shape;
    !(2..=8).contains(&n) || !(1..=8).contains(&c) || !(1..=64).contains(&m)
}

// Whether L is outside its range.
#[tactic(auto, unfolding(words::specs::Folds::any_of))]
pub fn bad_limit(shape: Shape) -> bool
    ensures { result ≡ bad_limit shape }
{
    !(1..=8).contains(&shape.limit)
}

fn blank_line() -> Line
    ensures { result ≡ blank_line }
{
    Line {
        valid: false,
        private: false,
        block: BlockNo(0),
        words: [0; 4],
    }
}

#[tactic(auto, unfolding(store::specs::Opening::blank_lane))]
fn blank_lane() -> Lane
    ensures { result ≡ blank_lane }
{
    Lane {
        lines: [blank_line(); 8],
        order: [
            LineNo(0),
            LineNo(1),
            LineNo(2),
            LineNo(3),
            LineNo(4),
            LineNo(5),
            LineNo(6),
            LineNo(7),
        ],
        returns: ReturnQueue {
            len: 0,
            at: [ReturnMessage::bare(ReturnKind::Eject, BlockNo(0)); 8],
        },
        downs: DownQueue {
            len: 0,
            at: [DownMessage::bare(DownKind::Update, BlockNo(0)); 8],
        },
        waiting: Waiting::Idle,
    }
}

#[tactic(auto, unfolding(store::specs::Opening::blank_block))]
fn blank_block() -> Block
    ensures { result ≡ blank_block }
{
    Block {
        words: [0; 4],
        present: [false; 8],
        modified: false,
    }
}

// The store of an opening, whatever its shape.
#[tactic(auto, unfolding(store::specs::Opening::fresh_of))]
pub fn fresh(shape: Shape) -> Store
    ensures { result ≡ fresh_of shape }
{
    Store {
        shape,
        control: Control {
            slots: [None; SLOTS],
        },
        completions: 0,
        lanes: [blank_lane(); 8],
        blocks: [blank_block(); 64],
    }
}

// The blank store, before any opening.
pub fn blank() -> Store
    ensures { result ≡ blank_store }
{
    fresh(Shape {
        n: 0,
        c: 0,
        m: 0,
        limit: 0,
    })
}

// The store that an opening gives, or why there is none.
#[tactic(auto, unfolding(store::specs::Opening::opened_of))]
pub fn opened(shape: Shape) -> Result<Store, Refusal>
    ensures { result ≡ opened_of shape }
{
    if bad_shape(shape) {
        return Err(Refusal::InvalidShape);
    }
    if bad_limit(shape) {
        return Err(Refusal::InvalidLimit);
    }
    Ok(fresh(shape))
}

// Opening.
#[tactic(auto, using(store::proofs::Opens::open_opened))]
pub fn open(shape: Shape) -> Outcome
    ensures { result ≡ open_of shape }
{
    match opened(shape) {
        Ok(store) => Outcome {
            answer: Ok(Answer::Opened),
            store,
        },
        Err(why) => Outcome {
            answer: Err(why),
            store: blank(),
        },
    }
}
