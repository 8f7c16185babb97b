//! The bindings of the predicates that change, which are the first of the facts.

ghost use Rattle.std.specs.Prelude.{◌≡◌, ◌≤◌, ◌<◌, ◌∷◌, ◌++◌, [], ℕ, map, min, not, length, if◌then◌else◌, IfOk, OnOk, MatchOption};
ghost use Rattle.std.specs.List.{flat_map};
ghost use Rattle.std.specs.List.Sorted.{IsStrictlySortedBy};
ghost use Rattle.std.specs.Ordering.{nat_cmp};
ghost use Rattle.pddl_names.specs.Declarations.{Text, with_new};
ghost use Rattle.ground_world.specs.World.{columns};
ghost use Rattle.ground_world.specs.Bindings.{choice_count};
ghost use Rattle.ground_world.specs.Counts.{together};
ghost use Rattle.ground_world.specs.FirstState.{all_atoms, names_of, signatures_of};
ghost use Rattle.ground_world.specs.Shown.{env_of, columns_of, world_of};
ghost use Rattle.grounder.specs.Blocks.{next_block, next_count, changing_blocks, block_atoms, block_count};
ghost use Rattle.grounder.specs.ShownBlocks.{block_of, blocks_of};

use crate::atoms::add_key;
use exact_lin::NoMemory;
use ground_world::{Bound, Numbering, Tables, Variable, bound, choices_within, variables};
use pddl_terms::{Declared, Group};
use sqlite_items::Items;
use std::alloc::Global;

/// One more than the most facts that a task may have.
const FACT_CAP: usize = 16_385;

/// A predicate that changes, by its place, with its parameters.
#[derive(Drop)]
struct Block<'a> {
    predicate: u32,
    parameters: Items<Variable<'a>>,
}

// Puts a predicate with its parameters at the end, where it changes.
fn push_block<'a>(
    alloc: Global,
    tables: &'a Tables,
    predicate: u32,
    parameters: &'a [Group],
    out: &mut Items<Block<'a>>,
) -> Result<(), NoMemory>
    ensures { OnOk result (blocks_of out.new ≡ blocks_of out.old
        ++ (if (world_of tables.now).is_static predicate then [] else (predicate, columns (world_of tables.now) parameters.now) ∷ [])) }
{
    if tables.is_static(predicate) {
        return Ok(());
    }
    let parameters = variables(alloc, tables, parameters)?;
    out.push(Block {
        predicate,
        parameters,
    })?;
    Ok(())
}

// Puts the predicate of a declaration at the end, where it changes and is declared here first, behind `count` others.
// Answers how many are declared now.
fn push_declared<'a>(
    alloc: Global,
    tables: &'a Tables,
    declared: &'a Declared,
    count: usize,
    out: &mut Items<Block<'a>>,
) -> Result<usize, NoMemory>
    ensures count { IfOk result (λ next. next ≡ next_count (world_of tables.now) count declared.now) }
    ensures blocks { IfOk result (λ next. blocks_of out.new
        ≡ blocks_of out.old ++ next_block (world_of tables.now) count declared.now) }
{
    match declared {
        Declared::Named(_, name, parameters) => {
            let place = tables.predicate(name.bytes.as_slice());
            if place as usize != count {
                return Ok(count);
            }
            push_block(alloc, tables, place, parameters.as_slice(), out)?;
            Ok(place as usize + 1)
        }
        Declared::LeftOut(_) => Ok(count),
    }
}

// The predicates that change, each with the parameters of its first declaration.
fn changing<'a>(
    alloc: Global,
    tables: &'a Tables,
    declarations: &'a [Declared],
) -> Result<Items<Block<'a>>, NoMemory>
    requires { (world_of tables.now).predicates ≡ names_of (signatures_of declarations.now) }
    ensures { IfOk result (λ found. blocks_of found
        ≡ changing_blocks (world_of tables.now) (signatures_of declarations.now)) }
{
    let mut out = Items::new(alloc);
    let mut count = 0;
    for declared in declarations {
        count = push_declared(alloc, tables, declared, count, &mut out)?;
    }
    Ok(out)
}

// How many bindings some predicates have together, or one more than the most facts where they have more.
fn atoms_within(blocks: &[Block]) -> usize
    ensures { result ≡ min 16385 (together (map block_count (blocks_of blocks.now))) }
{
    let mut count = 0;
    for block in blocks {
        count += choices_within(block.parameters.as_slice(), FACT_CAP);
        count = count.min(FACT_CAP);
    }
    count
}

// Adds the atom of a predicate with the objects of a binding.
fn add_bound(
    alloc: Global,
    predicate: u32,
    env: &[Bound],
    atoms: &mut Numbering,
) -> Result<(), NoMemory>
    ensures { OnOk result (atoms.new ≡ with_new atoms.old ((predicate ∷ map (λ b. b.1) (env_of env.now)) ∷ [])) }
{
    let mut key = Items::new(alloc);
    key.push(predicate)?;
    for bound in env {
        key.push(bound.object)?;
    }
    add_key(alloc, key.as_slice(), atoms)
}

// Adds all bindings of a predicate.
fn add_block(alloc: Global, block: &Block, atoms: &mut Numbering) -> Result<(), NoMemory>
    requires { choice_count (columns_of block.now.parameters) ≤ 16384 }
    ensures { OnOk result (atoms.new ≡ with_new atoms.old (block_atoms (block_of block.now))) }
{
    let slots = block.parameters.as_slice();
    let count = choices_within(slots, FACT_CAP);
    for number in 0..count {
        let env = bound(alloc, &[], slots, number, count)?;
        add_bound(alloc, block.predicate, env.as_slice(), atoms)?;
    }
    Ok(())
}

// All bindings of some predicates.
fn bindings_of(alloc: Global, blocks: &[Block]) -> Result<Numbering, NoMemory>
    requires { together (map block_count (blocks_of blocks.now)) ≤ 16384 }
    ensures { IfOk result (λ atoms. atoms ≡ with_new [] (flat_map block_atoms (blocks_of blocks.now))) }
{
    let mut atoms = Numbering::new(alloc);
    for block in blocks {
        add_block(alloc, block, &mut atoms)?;
    }
    Ok(atoms)
}

/// The bindings of the predicates that change, in order, or None where they are more than a task may have facts.
pub fn changing_atoms(
    alloc: Global,
    tables: &Tables,
    declarations: &[Declared],
) -> Result<Option<Numbering>, NoMemory>
    requires names { (world_of tables.now).predicates ≡ names_of (signatures_of declarations.now) }
    requires ascending { (s : Text) → IsStrictlySortedBy nat_cmp ((world_of tables.now).fitting s) }
    ensures { let all = all_atoms (world_of tables.now) (λ p. not ((world_of tables.now).is_static p)) declarations.now in
        IfOk result (λ found. MatchOption found (16384 < length all) (λ atoms. atoms ≡ all)) }
{
    let blocks = changing(alloc, tables, declarations)?;
    if atoms_within(blocks.as_slice()) == FACT_CAP {
        return Ok(None);
    }
    let atoms = bindings_of(alloc, blocks.as_slice())?;
    Ok(Some(atoms))
}
