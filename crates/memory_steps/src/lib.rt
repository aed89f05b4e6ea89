// Memory's calls on a store that is not corrupt, serve and return, without the check of 14. They are for the crates above: a call pays that
// check before it, a tape and settle pay it once for many steps. The store is lent and changed in place; a refused call leaves it as it was.
#![tactic(auto)]

ghost use Rattle.std.specs.Prelude.{◌≡◌, false};
ghost use Rattle.machine.specs.Machine.Corruption.{corrupt_of};
ghost use Rattle.machine.specs.Machine.Serve.{serve_of};
ghost use Rattle.machine.specs.Machine.Return.{return_of};

use answers::{Answer, Refusal};
use store::Store;
use words::LaneNo;

// Serve on a store that is not corrupt.
pub fn serve_sound(store: &mut Store, k: LaneNo) -> Result<Answer, Refusal>
    requires { corrupt_of store.old ≡ false }
    ensures answer { result ≡ (serve_of store.old k).answer }
    ensures store { store.new ≡ (serve_of store.old k).store }
{
    if store.shape.n <= k.0 {
        return Err(Refusal::NoSuchLane);
    }
    let l = store.lanes[k.0 as usize];
    let o = memory_serve::check_ready(l, store.shape.limit, store.control)?;
    let a = o.word.block();
    let b = store.blocks[a.0 as usize];
    let part = memory_serve::serve_move(l, b, store.control, k, o);
    store_commit::commit_move(store, k, a, Ok(part))
}

// Return on a store that is not corrupt.
pub fn return_sound(store: &mut Store, k: LaneNo) -> Result<Answer, Refusal>
    requires { corrupt_of store.old ≡ false }
    ensures answer { result ≡ (return_of store.old k).answer }
    ensures store { store.new ≡ (return_of store.old k).store }
{
    if store.shape.n <= k.0 {
        return Err(Refusal::NoSuchLane);
    }
    let l = store.lanes[k.0 as usize];
    let (x, _) = l.returns.take().ok_or(Refusal::NothingPending)?;
    let b = store.blocks[x.block.0 as usize];
    let part = memory_return::return_move(l, b, store.control, k, x);
    store_commit::commit_move(store, k, x.block, part)
}
