//! What names and arguments stand for in a task.

ghost use Rattle.std.specs.Prelude.{◌≡◌, ◌&&◌, ◌==◌, map, option_map, IfOk};
ghost use Rattle.std.specs.List.{list_any};
ghost use Rattle.task_types.specs.WellMade.{arguments_fit};
ghost use Rattle.plan_files.specs.Entries.{Entry, entry_of, object_entry, action_entry, schema_entry, durative_of};
ghost use Rattle.plan_files.specs.Places.{HasPlaces};
ghost use Rattle.plan_files.specs.Tokens.{tokens};
ghost use Rattle.plan_files.specs.WordsSeen.{runs_in_front};
ghost use Rattle.plan_files.specs.Names.{same_word, object_named, objects_named, names_durative};
ghost use Rattle.plan_files.specs.Finding.{FindsWith, Finds};
ghost use Rattle.plan_files.specs.Known.{AreNames};

use crate::places::{Key, Places, key_of, places_of};
use crate::words::first_run;
use exact_lin::NoMemory;
use sqlite_items::Items;
use std::alloc::Global;
use task_types::{Action, Schema, Task};

/// A task with its names, each found in constant time.
#[derive(Drop)]
pub struct Names<'a> {
    pub task: &'a Task,
    objects: Places,
    actions: Places,
    durative: Places,
}

/// What the name and the arguments of a line stand for.
#[derive(Clone, Copy, Drop)]
pub enum Found {
    /// The ground action of this number.
    Action(u32),

    /// The name or an argument is unknown, or they don't fit each other.
    Untyped,

    /// The action was dropped by grounding.
    Unground,
}

fn object_keys(alloc: Global, objects: &[Items<u8>]) -> Result<Vec<Key>, NoMemory>
    ensures { IfOk result (λ ks. map {B = Entry} entry_of ks.items ≡ map {B = Entry} object_entry objects.now) }
{
    let mut keys = Vec::new(alloc);
    for object in objects {
        keys.push(key_of(alloc, object.as_slice(), Vec::new(alloc))?)?;
    }
    Ok(keys)
}

fn action_keys(alloc: Global, actions: &[Action]) -> Result<Vec<Key>, NoMemory>
    ensures { IfOk result (λ ks. map {B = Entry} entry_of ks.items ≡ map {B = Entry} action_entry actions.now) }
{
    let mut keys = Vec::new(alloc);
    for action in actions {
        let objects = Vec::from_slice(alloc, action.args.as_slice())?;
        keys.push(key_of(alloc, action.name.as_slice(), objects)?)?;
    }
    Ok(keys)
}

fn durative_keys(alloc: Global, schemas: &[Schema]) -> Result<Vec<Key>, NoMemory>
    ensures { IfOk result (λ ks. map {B = Entry} entry_of ks.items
        ≡ map {B = Entry} schema_entry (durative_of schemas.now)) }
{
    let mut keys = Vec::new(alloc);
    for schema in schemas {
        if schema.durative {
            keys.push(key_of(alloc, schema.name.as_slice(), Vec::new(alloc))?)?;
        }
    }
    Ok(keys)
}

fn object_places(alloc: Global, task: &Task) -> Result<Places, NoMemory>
    ensures { IfOk result (λ p. HasPlaces p (map {B = Entry} object_entry task.now.parts.objects)) }
{
    let keys = object_keys(alloc, task.objects())?;
    places_of(alloc, keys)
}

fn action_places(alloc: Global, task: &Task) -> Result<Places, NoMemory>
    ensures { IfOk result (λ p. HasPlaces p (map {B = Entry} action_entry task.now.parts.actions)) }
{
    let keys = action_keys(alloc, task.actions())?;
    places_of(alloc, keys)
}

fn durative_places(alloc: Global, task: &Task) -> Result<Places, NoMemory>
    ensures { IfOk result (λ p. HasPlaces p (map {B = Entry} schema_entry (durative_of task.now.parts.schemas))) }
{
    let keys = durative_keys(alloc, task.schemas())?;
    places_of(alloc, keys)
}

/// The names of a task, in time near linear in their number.
pub fn names_of(alloc: Global, task: &Task) -> Result<Names<'_>, NoMemory>
    ensures names { IfOk result AreNames }
    ensures task { IfOk result (λ n. n.task.now ≡ task.entry.now) }
{
    let objects = object_places(alloc, task)?;
    let actions = action_places(alloc, task)?;
    let durative = durative_places(alloc, task)?;
    Ok(Names {
        task,
        objects,
        actions,
        durative,
    })
}

// The number of the object that a word names.
fn object_of(alloc: Global, names: &Names<'_>, word: &[u8]) -> Result<Option<u32>, NoMemory>
    requires { AreNames names.now }
    ensures { IfOk result (λ o. o ≡ object_named names.now.task.now.parts word.now) }
{
    let key = key_of(alloc, word, Vec::new(alloc))?;
    Ok(names.objects.find(&key))
}

// The objects that the runs in front of a line name.
fn objects_of(alloc: Global, names: &Names<'_>, line: &[u8]) -> Result<Option<Vec<u32>>, NoMemory>
    requires { AreNames names.now }
    ensures { IfOk result (λ found. option_map (λ os. os.items) found
        ≡ objects_named names.now.task.now.parts (runs_in_front (tokens line.now))) }
{
    let mut objects = Vec::new(alloc);
    let mut rest = line;
    while let Some((word, behind)) = first_run(rest) {
        match object_of(alloc, names, word)? {
            Some(object) => objects.push(object)?,
            None => return Ok(None),
        }
        rest = behind;
    }
    Ok(Some(objects))
}

fn has(objects: &[u32], object: u32) -> bool
    ensures { result ≡ list_any (λ o. o == object) objects.now }
{
    objects.iter().any(|o| *o == object)
}

fn fit(objects: &[u32], params: &[Items<u32>]) -> bool
    ensures { result ≡ arguments_fit objects.now params.now }
{
    if objects.len() != params.len() {
        return false;
    }
    for i in 0..objects.len() {
        if !has(params[i].as_slice(), objects[i]) {
            return false;
        }
    }
    true
}

fn same_word(word: &[u8], other: &[u8]) -> bool
    ensures { result ≡ same_word word.now other.now }
{
    word.eq_ignore_ascii_case(other)
}

fn fits(schema: &Schema, name: &[u8], objects: &[u32]) -> bool
    ensures { result ≡ (same_word name.now schema.now.name && arguments_fit objects.now schema.now.params) }
{
    same_word(name, schema.name.as_slice()) && fit(objects, schema.params.as_slice())
}

// Whether some objects fit an action of the domain of this name.
fn fit_some(schemas: &[Schema], name: &[u8], objects: &[u32]) -> bool
    ensures { result ≡ list_any
        (λ s. same_word name.now s.name && arguments_fit objects.now s.params) schemas.now }
{
    for schema in schemas {
        if fits(schema, name, objects) {
            return true;
        }
    }
    false
}

/// Whether a word names an action of the domain that takes time.
pub fn is_durative(alloc: Global, names: &Names<'_>, name: &[u8]) -> Result<bool, NoMemory>
    requires { AreNames names.now }
    ensures { IfOk result (λ b. b ≡ names_durative names.now.task.now.parts name.now) }
{
    let key = key_of(alloc, name, Vec::new(alloc))?;
    Ok(names.durative.find(&key).is_some())
}

// The least ground action of a name with some objects, or whether they fit.
fn find_with(
    alloc: Global,
    names: &Names<'_>,
    name: &[u8],
    objects: Vec<u32>,
) -> Result<Found, NoMemory>
    requires { AreNames names.now }
    ensures { IfOk result (FindsWith names.now.task.now.parts name.now objects.items) }
{
    let key = key_of(alloc, name, objects)?;
    match names.actions.find(&key) {
        Some(action) => Ok(Found::Action(action)),
        None => {
            if fit_some(names.task.schemas(), name, key.1.as_slice()) {
                Ok(Found::Unground)
            } else {
                Ok(Found::Untyped)
            }
        }
    }
}

/// The ground action that a name and the arguments in front of a line stand for.
pub fn find_action(
    alloc: Global,
    names: &Names<'_>,
    name: &[u8],
    args: &[u8],
) -> Result<Found, NoMemory>
    requires { AreNames names.now }
    ensures { IfOk result (Finds names.now.task.now.parts name.now (runs_in_front (tokens args.now))) }
{
    match objects_of(alloc, names, args)? {
        Some(objects) => find_with(alloc, names, name, objects),
        None => Ok(Found::Untyped),
    }
}
