//! The owned form of a borrowed type, as `Cow` has it.

ghost use Rattle.std.specs.Prelude.{◌≡◌, IfErr, IfOk, true, slice_get};
ghost use Rattle.std.specs.Option.{option_map};
ghost use Rattle.abi_rust.specs.Meaning.{is_beside};
ghost use Rattle.abi_rust.specs.Resolving.{form_given, form_of, form_of_item, is_item, item_in, owned_form, owned_of};
ghost use Rattle.abi_rust.specs.Types.{all_given, ty_of};

use crate::budget::{Budget, Context, copy_of, push_given};
use crate::fault::Stop;
use crate::ty::{GenericArg, Primitive, Ty};
use crate::words::Word;

/// The owned form of what the parameter is given, where the item is the one that stands for it: of `str` a `String`, of
/// `[T]` a `Vec<T>`, of `CStr`, `OsStr` and `Path` what is named after them, and else the type itself.
#[tactic(auto, unfolding(crate::specs::Resolving::owned_of))]
pub(crate) fn owned_of(
    cx: &Context<'_, '_>,
    budget: &mut Budget<'_>,
    number: u32,
    given: &[GenericArg],
) -> Result<Option<Ty>, Stop>
    ensures ok { IfOk result (λ owned. option_map ty_of owned
        ≡ owned_of cx.now number (all_given given.now)) }
    ensures err { IfErr result (λ e. is_beside e ≡ true) }
{
    if !is_item(item_in(cx, Word::Borrow, Word::Owned), number) {
        return Ok(None);
    }
    match given.first() {
        Some(GenericArg::Type(borrowed)) => Ok(Some(owned_form(cx, budget, borrowed)?)),
        _ => Ok(None),
    }
}

/// The owned form of a type.
fn owned_form(cx: &Context<'_, '_>, budget: &mut Budget<'_>, borrowed: &Ty) -> Result<Ty, Stop>
    ensures ok { IfOk result (λ owned. ty_of owned
        ≡ owned_form cx.now (ty_of borrowed.now) (form_of cx.now (ty_of borrowed.now))) }
    ensures err { IfErr result (λ e. is_beside e ≡ true) }
{
    match form_of(cx, borrowed) {
        Some(form) => Ok(Ty::Adt(form, form_given(cx, budget, borrowed)?)),
        None => copy_of(cx.alloc, budget, borrowed),
    }
}

/// What an owned form is given: a slice's element, and an allocator of no bytes.
fn form_given(
    cx: &Context<'_, '_>,
    budget: &mut Budget<'_>,
    borrowed: &Ty,
) -> Result<Vec<GenericArg>, Stop>
    ensures ok { IfOk result (λ given. all_given given.items ≡ form_given cx.now (ty_of borrowed.now)) }
    ensures err { IfErr result (λ e. is_beside e ≡ true) }
{
    match borrowed {
        Ty::Slice(element) => {
            let element = copy_of(cx.alloc, budget, element)?;
            let mut given = Vec::new(cx.alloc);
            push_given(&mut given, GenericArg::Type(element))?;
            push_given(&mut given, GenericArg::Type(Ty::Tuple(Vec::new(cx.alloc))))?;
            Ok(given)
        }
        _ => Ok(Vec::new(cx.alloc)),
    }
}

/// Whether an item is the one of this number.
pub(crate) fn is_item(item: Option<u32>, number: u32) -> bool
    ensures { result ≡ is_item item number }
{
    match item {
        Some(item) => item == number,
        None => false,
    }
}

/// The item that is a borrowed type's owned form, where that is another type.
fn form_of(cx: &Context<'_, '_>, borrowed: &Ty) -> Option<u32>
    ensures { result ≡ form_of cx.now (ty_of borrowed.now) }
{
    match borrowed {
        Ty::Primitive(Primitive::Str) => item_in(cx, Word::StringModule, Word::String),
        Ty::Slice(_) => item_in(cx, Word::VecModule, Word::Vec),
        Ty::Adt(item, _) => form_of_item(cx, *item),
        _ => None,
    }
}

/// The owned form of a struct of the standard library that has one.
fn form_of_item(cx: &Context<'_, '_>, item: u32) -> Option<u32>
    ensures { result ≡ form_of_item cx.now item }
{
    if is_item(item_in(cx, Word::Ffi, Word::CStr), item) {
        return item_in(cx, Word::Ffi, Word::CString);
    }
    if is_item(item_in(cx, Word::Ffi, Word::OsStr), item) {
        return item_in(cx, Word::Ffi, Word::OsString);
    }
    if is_item(item_in(cx, Word::PathModule, Word::Path), item) {
        return item_in(cx, Word::PathModule, Word::PathBuf);
    }
    None
}

/// The type of this name in a module of the standard library.
#[tactic(auto, unfolding(crate::specs::Resolving::item_in))]
pub(crate) fn item_in(cx: &Context<'_, '_>, module: Word, name: Word) -> Option<u32>
    ensures { result ≡ item_in cx.now «module» name }
{
    let words = cx.scope.words;
    let module = cx.scope.module(cx.scope.std_root, words.symbol(module))?;
    cx.scope.ty(module, words.symbol(name))
}
