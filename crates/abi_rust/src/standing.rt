//! What stands in each module under each name.

ghost use Rattle.std.specs.Prelude.{◌≡◌, ◌&&◌, ◌⊎◌, ℕ, [], IfErr, IfOk, None, Option, Some, is_some, if◌then◌else◌};
ghost use Rattle.std.specs.Option.{option_copied};
ghost use Rattle.indexmap.specs.IndexMap.{get};
ghost use Rattle.abi_rust.specs.Scope.{numbered, same_key, several};
ghost use Rattle.abi_rust.specs.Sources.{is_type};
ghost use Rattle.abi_rust.specs.Standing.{IsMemory, constant_at, first_repeated, has_numbered, is_constant_at, is_constructor, is_constructor_at, is_module_at, is_module_constant, is_type_at, is_use_at, key_of, module_at, repeated_by, type_at, use_at};

use crate::fault::{FaultKind, Stop, stop_at};
use indexmap::IndexMap;
use rust_source::{Field, FieldName, Item, ItemKind, Module, Symbol, Use};

/// Stands for several uses of one name: no use has this number, since there are fewer.
pub(crate) const SEVERAL: u32 = u32::MAX;

/// A name in a module: the module's number, and the name's.
pub(crate) type Key = (u32, u32);

/// The number of what stands at an index: there are fewer than 2^32 of each kind, since each is written somewhere.
pub(crate) fn numbered(index: usize) -> u32
    ensures { result ≡ numbered index }
{
    u32::try_from(index).unwrap_or(u32::MAX)
}

/// A name in a module.
pub(crate) fn key(module: u32, name: Symbol) -> Key
    ensures { result ≡ («module», name.0) }
{
    (module, name.0)
}

/// Adds a module's name, unless it is a root's.
fn add_module(modules: &mut IndexMap<Key, u32>, number: u32, module: &Module) -> Result<(), Stop>
    ensures ok { IfOk result (λ _. (k : ℕ × ℕ) → get same_key modules.new k
        ≡ (if is_module_at k «module».now then Some number else get same_key modules.old k)) }
    ensures err { IfErr result IsMemory }
{
    if let Some(parent) = module.parent {
        let _ = modules.insert(key(parent, module.name), number)?;
    }
    Ok(())
}

/// Adds the modules' names, of two of one name the last.
#[tactic(auto, using(crate::proofs::StandingLemmas::last_more))]
pub(crate) fn add_modules(modules: &mut IndexMap<Key, u32>, all: &[Module]) -> Result<(), Stop>
    requires { (k : ℕ × ℕ) → get same_key modules.old k ≡ None }
    ensures ok { IfOk result (λ _. (k : ℕ × ℕ) → get same_key modules.new k ≡ module_at all.now k) }
    ensures err { IfErr result IsMemory }
{
    for (number, module) in all.iter().enumerate() {
        add_module(modules, numbered(number), module)?;
    }
    Ok(())
}

/// Whether there is a field, and it is a tuple's.
fn has_numbered(field: Option<&Field>) -> bool
    ensures { result ≡ has_numbered (option_copied field.entry) }
{
    match field {
        Some(field) => match field.name {
            FieldName::Numbered(_) => true,
            FieldName::Named(_) => false,
        },
        None => false,
    }
}

/// Whether it is a struct whose name is a value's too: it has a tuple's fields, or none and no braces.
pub(crate) fn is_constructor(kind: &ItemKind) -> bool
    ensures { result ≡ is_constructor kind.now }
{
    match kind {
        ItemKind::Struct(fields) => fields.is_unit || has_numbered(fields.all.first()),
        _ => false,
    }
}

/// Whether it is a constant that is a module's, and no type's own.
pub(crate) fn is_module_constant(kind: &ItemKind) -> bool
    ensures { result ≡ is_module_constant kind.now }
{
    match kind {
        ItemKind::Const(constant) => constant.owner.is_none(),
        _ => false,
    }
}

/// Whether it is a type, or another name of one.
pub(crate) fn is_type(kind: &ItemKind) -> bool
    ensures { result ≡ is_type kind.now }
{
    match kind {
        ItemKind::Const(_) => false,
        _ => true,
    }
}

/// The fault of an item whose name another one has, or a module.
fn repeated(
    types: &IndexMap<Key, u32>,
    constructors: &IndexMap<Key, u32>,
    constants: &IndexMap<Key, u32>,
    modules: &IndexMap<Key, u32>,
    item: &Item,
) -> Option<Stop>
    ensures { result ≡ repeated_by (get same_key types.now) (get same_key constructors.now) (get same_key constants.now)
        (get same_key modules.now) item.now }
{
    let key = key(item.module, item.name);
    let kind = &item.kind;
    if is_type(kind) && (types.get(&key).is_some() || modules.get(&key).is_some()) {
        return Some(stop_at(item.at, FaultKind::RepeatedType(item.name)));
    }
    let is_constant = constants.get(&key).is_some();
    let is_value = is_constant || constructors.get(&key).is_some();
    if is_constructor(kind) && is_constant || is_module_constant(kind) && is_value {
        return Some(stop_at(item.at, FaultKind::RepeatedConstant(item.name)));
    }
    None
}

/// Adds an item's name to these, if it is one of them.
fn add_name(
    names: &mut IndexMap<Key, u32>,
    is_one: bool,
    number: u32,
    item: &Item,
) -> Result<(), Stop>
    ensures ok { IfOk result (λ _. (k : ℕ × ℕ) → get same_key names.new k
        ≡ (if is_one && same_key (key_of item.now) k then Some number else get same_key names.old k)) }
    ensures err { IfErr result IsMemory }
{
    if is_one {
        let _ = names.insert(key(item.module, item.name), number)?;
    }
    Ok(())
}

/// Adds an item's name to those of types, of structs whose names are values' too, or of modules' constants.
fn add_item(
    types: &mut IndexMap<Key, u32>,
    constructors: &mut IndexMap<Key, u32>,
    constants: &mut IndexMap<Key, u32>,
    number: u32,
    item: &Item,
) -> Result<(), Stop>
    ensures types { IfOk result (λ _. (k : ℕ × ℕ) → get same_key types.new k
        ≡ (if is_type_at k item.now then Some number else get same_key types.old k)) }
    ensures constructors { IfOk result (λ _. (k : ℕ × ℕ) → get same_key constructors.new k
        ≡ (if is_constructor_at k item.now then Some number else get same_key constructors.old k)) }
    ensures constants { IfOk result (λ _. (k : ℕ × ℕ) → get same_key constants.new k
        ≡ (if is_constant_at k item.now then Some number else get same_key constants.old k)) }
    ensures err { IfErr result IsMemory }
{
    add_name(types, is_type(&item.kind), number, item)?;
    add_name(constructors, is_constructor(&item.kind), number, item)?;
    add_name(constants, is_module_constant(&item.kind), number, item)
}

/// Adds the names of types and of modules' constants. The fault is that of the first item whose name one before it has, or a module.
pub(crate) fn add_items(
    types: &mut IndexMap<Key, u32>,
    constants: &mut IndexMap<Key, u32>,
    modules: &IndexMap<Key, u32>,
    all: &[Item],
) -> Result<(), Stop>
    requires types { (k : ℕ × ℕ) → get same_key types.old k ≡ None }
    requires constants { (k : ℕ × ℕ) → get same_key constants.old k ≡ None }
    ensures types { IfOk result (λ _. (k : ℕ × ℕ) → get same_key types.new k ≡ type_at all.now k) }
    ensures constants { IfOk result (λ _. (k : ℕ × ℕ) →
        get same_key constants.new k ≡ constant_at all.now k) }
    ensures once { IfOk result (λ _. first_repeated (get same_key modules.now) [] all.now ≡ None) }
    ensures err { IfErr result (λ stop.
        (first_repeated (get same_key modules.now) [] all.now ≡ Some stop) ⊎ IsMemory stop) }
{
    let mut constructors = IndexMap::new(*types.allocator());
    for (number, item) in all.iter().enumerate() {
        if let Some(stop) = repeated(types, &constructors, constants, modules, item) {
            return Err(stop);
        }
        add_item(types, &mut constructors, constants, numbered(number), item)?;
    }
    Ok(())
}

/// Adds the name that a use brings in; where one before it does so, there are several.
fn add_use(uses: &mut IndexMap<Key, u32>, number: u32, used: &Use) -> Result<(), Stop>
    ensures ok { IfOk result (λ _. (k : ℕ × ℕ) → get same_key uses.new k
        ≡ (if is_use_at k used.now
        then Some (if is_some (get same_key uses.old k) then several else number)
        else get same_key uses.old k)) }
    ensures err { IfErr result IsMemory }
{
    if let Some(name) = used.name {
        let key = key(used.module, name);
        let is_first = uses.get(&key).is_none();
        let number = if is_first { number } else { SEVERAL };
        let _ = uses.insert(key, number)?;
    }
    Ok(())
}

/// Adds the names that uses bring in.
pub(crate) fn add_uses(uses: &mut IndexMap<Key, u32>, all: &[Use]) -> Result<(), Stop>
    requires { (k : ℕ × ℕ) → get same_key uses.old k ≡ None }
    ensures ok { IfOk result (λ _. (k : ℕ × ℕ) → get same_key uses.new k ≡ use_at all.now k) }
    ensures err { IfErr result IsMemory }
{
    for (number, used) in all.iter().enumerate() {
        add_use(uses, numbered(number), used)?;
    }
    Ok(())
}
