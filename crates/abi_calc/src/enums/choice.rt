//! The choice between the layout of an enum with a tag and the one with a niche.

ghost use Rattle.std.specs.Prelude.{◌≡◌, IfSome, Some};
ghost use Rattle.abi_scalar.specs.Lawful.{IsLawfulNiche};
ghost use Rattle.abi_calc.specs.Enums.Choice.{preferred_layout, takes_niche};

use abi_base::TargetDataLayout;
use abi_index::Idx;
use abi_scalar::LayoutData;
use abi_univariant::free_numbers;

/// Whether the layout with a niche is the better one: it is smaller, or as large with more free numbers left.
fn takes_niche<FieldIdx: Idx, VariantIdx: Idx>(
    dl: &TargetDataLayout,
    tagged: &LayoutData<FieldIdx, VariantIdx>,
    niche: &LayoutData<FieldIdx, VariantIdx>,
) -> bool
    requires tagged { IfSome tagged.now.largest_niche (IsLawfulNiche dl.now tagged.now.size) }
    requires niche { IfSome niche.now.largest_niche (IsLawfulNiche dl.now niche.now.size) }
    ensures { result ≡ takes_niche dl.now tagged.now niche.now }
{
    niche.size < tagged.size
        || niche.size == tagged.size
            && free_numbers(dl, tagged.size, tagged.largest_niche)
                < free_numbers(dl, niche.size, niche.largest_niche)
}

/// The better of both layouts.
pub(crate) fn preferred_layout<FieldIdx: Idx, VariantIdx: Idx>(
    dl: &TargetDataLayout,
    tagged: LayoutData<FieldIdx, VariantIdx>,
    niche: LayoutData<FieldIdx, VariantIdx>,
) -> LayoutData<FieldIdx, VariantIdx>
    requires tagged { IfSome tagged.largest_niche (IsLawfulNiche dl.now tagged.size) }
    requires niche { IfSome niche.largest_niche (IsLawfulNiche dl.now niche.size) }
    ensures { result ≡ preferred_layout dl.now tagged (Some niche) }
{
    if takes_niche(dl, &tagged, &niche) {
        niche
    } else {
        tagged
    }
}
