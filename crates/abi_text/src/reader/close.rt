//! Reads closing parentheses.

ghost use Rattle.std.specs.Prelude.{◌≡◌, IfErr, OnOk, Some, map};
ghost use Rattle.abi_tree.specs.Tree.{coroutine, enum, struct, tree_of, trees};
ghost use Rattle.abi_text.specs.Reading.{Agrees, begun_in, closed, indices_by, part_closed, parts_by, state_of, variant_by, variants_read};

use crate::fault::Fault;
use crate::reader::begun::{
    CoroutineParts, CoroutineWant, Open, OrderWant, Reader, Want, put_type, wait_for,
};
use crate::reader::repr_text::StructRepr;
use abi_scalar::ReprOptions;
use abi_tree::TypeTree;
use std::alloc::Global;

/// A struct with this order.
fn ordered(asked: &StructRepr, order: Vec<u64>, fields: Vec<TypeTree>) -> TypeTree
    ensures { tree_of result ≡ struct asked.now.repr asked.now.always_sized (Some order.items)
        (trees (map tree_of fields.items)) }
{
    TypeTree::Ordered {
        repr: asked.repr,
        always_sized: asked.always_sized,
        order,
        fields,
    }
}

/// An enum of these variants.
fn whole_enum(repr: ReprOptions, variants: Vec<(u128, Vec<TypeTree>)>) -> TypeTree
    ensures { tree_of result ≡ enum repr (variants_read (map variant_by variants.items)) }
{
    TypeTree::Enum { repr, variants }
}

/// A coroutine of these parts.
fn whole_coroutine(
    prefix: Vec<TypeTree>,
    locals: Vec<TypeTree>,
    states: Vec<Vec<u64>>,
    conflicts: Vec<(u64, u64)>,
) -> TypeTree
    ensures { tree_of result ≡ coroutine (trees (map tree_of prefix.items))
        (trees (map tree_of locals.items)) (map indices_by states.items) conflicts.items }
{
    TypeTree::Coroutine {
        prefix,
        locals,
        states,
        conflicts,
    }
}

/// Ends a part of a coroutine; the conflicts are the last, and end the coroutine.
fn close_part(alloc: Global, parts: CoroutineParts, reader: &mut Reader) -> Result<(), Fault>
    ensures ok { OnOk result (state_of reader.new
        ≡ part_closed (parts_by parts) (begun_in reader.old.begun.items)) }
    ensures err { IfErr result (λ fault. fault ≡ Fault.OutOfMemory) }
{
    match parts {
        CoroutineParts::Prefix(prefix) => {
            let parts = CoroutineParts::Locals(prefix, Vec::new(alloc));
            wait_for(CoroutineWant::TypesOpening, parts, reader)
        }
        CoroutineParts::Locals(prefix, locals) => {
            let parts = CoroutineParts::States(prefix, locals, Vec::new(alloc));
            wait_for(CoroutineWant::StatesOpening, parts, reader)
        }
        CoroutineParts::States(prefix, locals, states) => {
            let parts = CoroutineParts::Conflicts(prefix, locals, states, Vec::new(alloc));
            wait_for(CoroutineWant::ConflictsOpening, parts, reader)
        }
        CoroutineParts::State(prefix, locals, mut states, indices) => {
            states.push(indices)?;
            let parts = CoroutineParts::States(prefix, locals, states);
            wait_for(CoroutineWant::State, parts, reader)
        }
        CoroutineParts::Conflicts(prefix, locals, states, conflicts) => {
            put_type(
                alloc,
                whole_coroutine(prefix, locals, states, conflicts),
                reader,
            )
        }
    }
}

/// Reads a closing parenthesis.
pub(crate) fn close(alloc: Global, number: u64, reader: &mut Reader) -> Result<(), Fault>
    ensures { Agrees (λ _. state_of reader.new)
        (closed number (begun_in reader.old.begun.items)) result }
{
    match reader.begun.pop() {
        Some(Open::Fields(asked, fields)) => {
            let tree = TypeTree::Struct {
                repr: asked.repr,
                always_sized: asked.always_sized,
                fields,
            };
            put_type(alloc, tree, reader)
        }
        Some(Open::Ordering(asked, order)) => {
            reader.begun.push(Open::Ordering(asked, order))?;
            reader.want = Want::Order(OrderWant::FieldsOpening);
            Ok(())
        }
        Some(Open::Ordered(asked, order, fields)) => {
            put_type(alloc, ordered(&asked, order, fields), reader)
        }
        Some(Open::Members(repr, fields)) => put_type(
            alloc,
            TypeTree::Union { repr, fields },
            reader,
        ),
        Some(Open::Variant(repr, mut variants, discriminant, fields)) => {
            variants.push((discriminant, fields))?;
            reader.begun.push(Open::Variants(repr, variants))?;
            reader.want = Want::Discriminant;
            Ok(())
        }
        Some(Open::Variants(repr, variants)) => put_type(alloc, whole_enum(repr, variants), reader),
        Some(Open::Coroutine(parts)) => close_part(alloc, parts, reader),
        _ => Err(Fault::Unreadable(number)),
    }
}
