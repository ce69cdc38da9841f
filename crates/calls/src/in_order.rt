//! Calls of the calculator for lists of fields in an order that is handed in.

ghost use Rattle.abi_base.specs.DataLayout.{IsLawfulDataLayout};

use crate::command::Command;
use crate::layouts::{Layout, layouts};
use crate::lists::{list_made, list_repr};
use crate::stop::Refusal;
use abi_base::TargetDataLayout;
use abi_index::FieldIdx;
use abi_scalar::ReprFlags;

/// The index of a field that has this number, where a field can have it.
fn field_index(number: u32) -> Option<FieldIdx> {
    if number > 0xFFFF_FF00 {
        return None;
    }
    Some(FieldIdx::from_u32(number))
}

/// The indices of fields between the parentheses that are next.
fn order_of(command: &mut Command) -> Vec<FieldIdx> {
    command.expect(b"(");
    let mut order = Vec::new(command.alloc);
    for _ in 0..u64::MAX {
        if !command.has_more() {
            break;
        }
        let number = command.short();
        let index = command.fits(field_index(number), FieldIdx::from_u32(0));
        command.grow(order.push(index));
    }
    order
}

/// `univariant-in-order REPR KIND ( NUMBER.. ) ( LAYOUT.. )`: the repr is flagged as one whose fields may be shuffled.
pub(crate) fn univariant_in_order(
    dl: &TargetDataLayout,
    command: &mut Command,
) -> Result<Layout, Refusal>
    requires { IsLawfulDataLayout dl.now }
{
    let mut asked = list_repr(command);
    asked.repr.flags = asked.repr.flags | ReprFlags::RANDOMIZE_LAYOUT;
    let order = order_of(command);
    let made = layouts(dl, command);
    list_made(command.alloc, dl, &made, &asked, Some(order.as_slice()))
}
