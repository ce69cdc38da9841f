//! Data layouts with alignments that no string can give.

use abi_base::{Align, Size, TargetDataLayout, VectorAligns};
use std::alloc::{AllocError, Global};
use std::test::Fail;

/// What a data layout has an alignment of.
#[derive(Clone, Copy)]
enum Aligned {
    Aggregates,
    Bools,
    /// Vectors of 8 bytes, and these alone.
    Vectors,
}

/// One alignment of vectors of 8 bytes.
fn vectors_aligned_to(alloc: Global, align: Align) -> Result<VectorAligns, AllocError> {
    Ok(VectorAligns::from(vec![in alloc; (Size::from_bytes(8), align)]?))
}

/// Whether the default data layout is lawful with this alignment of these, in bytes.
fn is_lawful_with(alloc: Global, aligned: Aligned, bytes: u64) -> Result<bool, AllocError> {
    let align = Align::max_aligned_factor(Size::from_bytes(bytes));
    let mut dl = TargetDataLayout::default_in(alloc)?;
    match aligned {
        Aligned::Aggregates => dl.aggregate_align = align,
        Aligned::Bools => dl.i1_align = align,
        Aligned::Vectors => dl.vector_align = vectors_aligned_to(alloc, align)?,
    }
    Ok(dl.is_lawful())
}

#[test]
fn alignments_above_the_limit_are_unlawful(rt: HostRuntime) -> Result<(), Fail> {
    for aligned in [Aligned::Aggregates, Aligned::Bools, Aligned::Vectors] {
        assert!(rt; is_lawful_with(rt.alloc(), aligned, 1 << 29)?);
        assert!(rt; !is_lawful_with(rt.alloc(), aligned, 1 << 30)?);
    }
    Ok(())
}
