//! Constant texts: which declaration each is, is known when the program is proved, and no fault but the want of memory is left.

ghost use Rattle.std.specs.Prelude.{◌≡◌, [], ◌∷◌, IfOk};
ghost use Rattle.path_model.specs.Declarations.{trees};
ghost use Rattle.tests_texts.specs.Constants.{pool, pool_tree, slot, shop};

use path_decl::{Decl, counts};
use path_model::OutOfMemory;
use path_read::read_constant;
use std::alloc::{Allocator, Global};
use std::process::Abort;
use test_support::{Refusing, refuse_in_turn};

const POOL: &[u8] =
    b"resource pool tally operation query, backup path { query : 3 } , backup end end";

const SLOT: &[u8] = b"resource slot cell operation deposit, remove path deposit ; remove end end";

const SHOP: &[u8] =
    b"resource till tally operation sell,refund,audit_1\n\tpath(sell;refund),{ audit_1:65535 }end end
    resource shelf queue 1024operation put, take path (put) ; { (take) } end path take end end";

/// The declaration of the pool.
#[tactic(auto, unfolding(path_read::specs::Computed::declared_in))]
fn open_pool<A: Allocator + Copy>(alloc: A) -> Result<Decl<A>, OutOfMemory>
    ensures { IfOk result (λ d. d.declaration ≡ pool) }
{
    read_constant(alloc, POOL)
}

/// The same, of whose declaration only the trees are told.
#[tactic(auto, unfolding(path_read::specs::Computed::declared_in))]
fn open_trees<A: Allocator + Copy>(alloc: A) -> Result<Decl<A>, OutOfMemory>
    ensures { IfOk result (λ d. trees d.declaration ≡ pool_tree ∷ []) }
{
    read_constant(alloc, POOL)
}

/// The declaration of the slot.
#[tactic(auto, unfolding(path_read::specs::Computed::declared_in))]
fn open_slot<A: Allocator + Copy>(alloc: A) -> Result<Decl<A>, OutOfMemory>
    ensures { IfOk result (λ d. d.declaration ≡ slot) }
{
    read_constant(alloc, SLOT)
}

/// The declaration of the shop: several resources, a queue, parentheses, and white space as it comes.
#[tactic(auto, unfolding(path_read::specs::Computed::declared_in))]
fn open_shop<A: Allocator + Copy>(alloc: A) -> Result<Decl<A>, OutOfMemory>
    ensures { IfOk result (λ d. d.declaration ≡ shop) }
{
    read_constant(alloc, SHOP)
}

// The number of operations of a declaration.
fn operations_of<A: Allocator + Copy>(
    opened: Result<Decl<A>, OutOfMemory>,
) -> Result<u32, OutOfMemory> {
    let decl = opened?;
    let operations = counts(&decl).operations;
    drop(decl);
    Ok(operations)
}

// Checks that a declaration was read, and that it has so many operations.
fn expect_operations(rt: &impl Abort, opened: Result<Decl, OutOfMemory>, want: u32) {
    assert_eq!(rt; operations_of(opened), Ok(want));
}

#[test]
fn constants_are_read(rt: HostRuntime) {
    expect_operations(&rt, open_pool(rt.alloc()), 2);
    expect_operations(&rt, open_trees(rt.alloc()), 2);
    expect_operations(&rt, open_slot(rt.alloc()), 2);
    expect_operations(&rt, open_shop(rt.alloc()), 5);
}

// Refuses each request of reading a constant in turn.
#[test]
fn reading_a_constant_wants_memory(rt: HostRuntime) {
    let refused = refuse_in_turn(
        rt.alloc(),
        OutOfMemory,
        |refusing: &Refusing<Global>| Ok(operations_of(open_shop(refusing))? == 5),
    );
    assert_eq!(rt; refused, Ok(()));
}
