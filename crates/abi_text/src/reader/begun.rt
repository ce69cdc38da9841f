//! What has been read of a type.

ghost use Rattle.std.specs.Prelude.{◌≡◌, ◌++◌, ◌∷◌, [], IfOk, IfErr, OnOk};
ghost use Rattle.abi_tree.specs.Tree.{tree_of, vector};
ghost use Rattle.abi_text.specs.Reading.{begun_by, begun_in, coroutine_with, parts_by, put_type, put_primitive, put_scalar, state_of, waiting, with_member, with_type};

use crate::fault::Fault;
use crate::reader::repr_text::StructRepr;
use crate::reader::scalars::full;
use abi_base::{Primitive, TargetDataLayout};
use abi_scalar::{ReprOptions, Scalar};
use abi_tree::TypeTree;
use std::alloc::{AllocError, Global};

/// What comes next in a coroutine's text, where no type may come.
#[derive(Clone, Copy)]
pub(crate) enum CoroutineWant {
    /// The prefix fields, or the locals.
    TypesOpening,
    /// The states.
    StatesOpening,
    /// The next state.
    State,
    /// The index of a state's next local.
    Local,
    /// The conflicts.
    ConflictsOpening,
    /// The row of the next conflict.
    Row,
    /// The column of a conflict with this row.
    Column(u64),
}

/// What comes next in the text of a struct whose order is handed in, where no type may come.
#[derive(Clone, Copy)]
pub(crate) enum OrderWant {
    /// Its repr.
    Repr,
    /// The order, of a struct with this repr.
    Opening(StructRepr),
    /// The order's next index.
    Index,
    /// The fields.
    FieldsOpening,
}

/// Where a scalar belongs.
#[derive(Clone, Copy)]
pub(crate) enum ScalarPlace {
    /// It is a type.
    Alone,
    /// It is a pair's first scalar.
    First,
    /// It is the second scalar of a pair that has this first one.
    Second(Scalar),
}

/// What a primitive makes of a scalar.
#[derive(Clone, Copy)]
pub(crate) enum ScalarForm {
    /// One with every number of its width.
    Full,
    /// One with a range, whose ends follow.
    Range,
    /// A union's.
    Union,
}

/// What comes next in a type's text.
#[derive(Clone, Copy)]
pub(crate) enum Want {
    Tree,
    /// A scalar of a pair.
    Scalar(ScalarPlace),
    /// The primitive of a range, or of a union's scalar.
    Primitive(ScalarForm, ScalarPlace),
    /// The number of an address space.
    Space(ScalarForm, ScalarPlace),
    /// The start of a range of this primitive.
    RangeStart(Primitive, ScalarPlace),
    /// The end of a range of this primitive that has this start.
    RangeEnd(Primitive, u128, ScalarPlace),
    /// An array's count.
    Count,
    /// How many lanes a vector has, a packed one or another.
    Lanes(bool),
    /// A struct's repr.
    Repr,
    UnionRepr,
    EnumRepr,
    /// The fields of a struct with this repr.
    Opening(StructRepr),
    /// The fields of a union with this repr.
    UnionOpening(ReprOptions),
    /// The variants of an enum with this repr.
    EnumOpening(ReprOptions),
    /// The discriminant of an enum's next variant.
    Discriminant,
    /// The fields of a variant with this discriminant.
    VariantOpening(u128),
    Coroutine(CoroutineWant),
    Order(OrderWant),
    /// Nothing: the type is complete.
    End,
}

/// The parts so far of a coroutine that is begun.
#[derive(Drop)]
pub(crate) enum CoroutineParts {
    /// Within the prefix fields.
    Prefix(Vec<TypeTree>),
    /// Within the locals: the prefix fields, and the locals so far.
    Locals(Vec<TypeTree>, Vec<TypeTree>),
    /// Between the states: the prefix fields, the locals, and for each state so far the indices of its locals.
    States(Vec<TypeTree>, Vec<TypeTree>, Vec<Vec<u64>>),
    /// Within a state: the same, and the indices of this state's locals so far.
    State(Vec<TypeTree>, Vec<TypeTree>, Vec<Vec<u64>>, Vec<u64>),
    /// Within the conflicts: the prefix fields, the locals, the states, and the rows and columns so far.
    Conflicts(Vec<TypeTree>, Vec<TypeTree>, Vec<Vec<u64>>, Vec<(u64, u64)>),
}

/// A type that is begun.
#[derive(Drop)]
pub(crate) enum Open {
    /// An array, which waits for its element.
    Elements(u64),
    /// A vector, by its lanes and whether it is packed, which waits for its element.
    Lanes(u64, bool),
    /// A struct, with the fields so far.
    Fields(StructRepr, Vec<TypeTree>),
    /// A struct whose order is handed in, with the indices so far.
    Ordering(StructRepr, Vec<u64>),
    /// A struct with this order, with the fields so far.
    Ordered(StructRepr, Vec<u64>, Vec<TypeTree>),
    /// A union, with the fields so far.
    Members(ReprOptions, Vec<TypeTree>),
    /// An enum between its variants, with those so far.
    Variants(ReprOptions, Vec<(u128, Vec<TypeTree>)>),
    /// An enum within a variant: the variants before it, its discriminant, and its fields so far.
    Variant(ReprOptions, Vec<(u128, Vec<TypeTree>)>, u128, Vec<TypeTree>),
    Coroutine(CoroutineParts),
}

/// What has been read of a type.
#[derive(Drop)]
pub(crate) struct Reader {
    pub(crate) want: Want,
    /// The types that are begun, the innermost last.
    pub(crate) begun: Vec<Open>,
    /// The type, once it's complete.
    pub(crate) tree: Option<TypeTree>,
}

/// Waits for something that is no type, within a coroutine with these parts so far.
pub(crate) fn wait_for(
    part: CoroutineWant,
    parts: CoroutineParts,
    reader: &mut Reader,
) -> Result<(), Fault>
    ensures ok { OnOk result (state_of reader.new ≡ waiting (Want.Coroutine part)
        (coroutine_with (parts_by parts) ∷ begun_in reader.old.begun.items)) }
    ensures err { IfErr result (λ fault. fault ≡ Fault.OutOfMemory) }
{
    reader.begun.push(Open::Coroutine(parts))?;
    reader.want = Want::Coroutine(part);
    Ok(())
}

/// A vector of `lanes` lanes, packed or not.
fn vector(
    alloc: Global,
    lanes: u64,
    packed: bool,
    element: TypeTree,
) -> Result<TypeTree, AllocError>
    ensures { IfOk result (λ tree. tree_of tree ≡ vector lanes packed (tree_of element)) }
{
    Ok(TypeTree::Vector {
        lanes,
        packed,
        element: Box::new(alloc, element)?,
    })
}

/// Puts one type more into the part of a coroutine that is begun.
fn with_type(tree: TypeTree, parts: &mut CoroutineParts) -> Result<(), Fault>
    ensures ok { OnOk result (parts_by parts.new ≡ with_type (tree_of tree) (parts_by parts.old)) }
    ensures err { IfErr result (λ fault. fault ≡ Fault.OutOfMemory) }
{
    match parts {
        CoroutineParts::Prefix(prefix) => prefix.push(tree)?,
        CoroutineParts::Locals(_, locals) => locals.push(tree)?,
        _ => {}
    }
    Ok(())
}

/// Puts a field behind a variant's others. Room is asked for one at the first, as most variants have few.
fn with_field(tree: TypeTree, fields: &mut Vec<TypeTree>) -> Result<(), AllocError>
    ensures { OnOk result (fields.new.items ≡ fields.old.items ++ tree ∷ []) }
{
    if fields.is_empty() {
        fields.reserve_exact(1)?;
    }
    fields.push(tree)?;
    Ok(())
}

/// Puts one type more into the list of types of one that is begun.
fn with_member(tree: TypeTree, top: &mut Open) -> Result<(), Fault>
    ensures ok { OnOk result (begun_by top.new ≡ with_member (tree_of tree) (begun_by top.old)) }
    ensures err { IfErr result (λ fault. fault ≡ Fault.OutOfMemory) }
{
    match top {
        Open::Fields(_, fields) => fields.push(tree)?,
        Open::Ordered(_, _, fields) => fields.push(tree)?,
        Open::Members(_, fields) => fields.push(tree)?,
        Open::Variant(_, _, _, fields) => with_field(tree, fields)?,
        Open::Coroutine(parts) => with_type(tree, parts)?,
        _ => {}
    }
    Ok(())
}

/// Puts a complete type into the innermost type that is begun.
pub(crate) fn put_type(alloc: Global, tree: TypeTree, reader: &mut Reader) -> Result<(), Fault>
    ensures ok { OnOk result (state_of reader.new
        ≡ put_type (tree_of tree) (begun_in reader.old.begun.items)) }
    ensures err { IfErr result (λ fault. fault ≡ Fault.OutOfMemory) }
{
    let mut tree = tree;
    while let Some(top) = reader.begun.pop() {
        match top {
            Open::Elements(count) => tree = TypeTree::Array(count, Box::new(alloc, tree)?),
            Open::Lanes(lanes, packed) => tree = vector(alloc, lanes, packed, tree)?,
            mut other => {
                with_member(tree, &mut other)?;
                reader.begun.push(other)?;
                reader.want = Want::Tree;
                return Ok(());
            }
        }
    }
    reader.want = Want::End;
    reader.tree = Some(tree);
    Ok(())
}

/// Puts a complete scalar where it belongs.
pub(crate) fn put_scalar(
    alloc: Global,
    scalar: Scalar,
    place: ScalarPlace,
    reader: &mut Reader,
) -> Result<(), Fault>
    ensures ok { OnOk result (state_of reader.new
        ≡ put_scalar scalar place (begun_in reader.old.begun.items)) }
    ensures err { IfErr result (λ fault. fault ≡ Fault.OutOfMemory) }
{
    match place {
        ScalarPlace::Alone => put_type(alloc, TypeTree::Scalar(scalar), reader),
        ScalarPlace::First => {
            reader.want = Want::Scalar(ScalarPlace::Second(scalar));
            Ok(())
        }
        ScalarPlace::Second(first) => put_type(alloc, TypeTree::Pair(first, scalar), reader),
    }
}

/// Puts a complete primitive into what waits for one, or makes it a scalar with its full range.
pub(crate) fn put_primitive(
    alloc: Global,
    dl: &TargetDataLayout,
    value: Primitive,
    form: ScalarForm,
    place: ScalarPlace,
    reader: &mut Reader,
) -> Result<(), Fault>
    ensures ok { OnOk result (state_of reader.new
        ≡ put_primitive dl.now value form place (begun_in reader.old.begun.items)) }
    ensures err { IfErr result (λ fault. fault ≡ Fault.OutOfMemory) }
{
    match form {
        ScalarForm::Full => put_scalar(alloc, full(dl, value), place, reader),
        ScalarForm::Range => {
            reader.want = Want::RangeStart(value, place);
            Ok(())
        }
        ScalarForm::Union => put_scalar(alloc, Scalar::Union { value }, place, reader),
    }
}
