//! Reading a data layout string.

ghost use Rattle.std.specs.Prelude.{◌≡◌, ◌∷◌, IfOk, IfErr, Ok, List};
ghost use Rattle.std.specs.Result.{OnErr, OnOk};
ghost use Rattle.abi_base.specs.declared.setting.Setting.{Setting};
ghost use Rattle.abi_base.specs.declared.data_layout.TargetDataLayout.{TargetDataLayout};
ghost use Rattle.abi_base.specs.DataLayout.{Knows};
ghost use Rattle.abi_base.specs.DataLayoutFault.{NamesFault};
ghost use Rattle.abi_base.specs.declared.setting.Setting.TheVariants.{Aligned, Integer, Pointer};
ghost use Rattle.abi_base.specs.DataLayoutText.{data_layout_in, default_with, with_instructions, with_settings};
ghost use Rattle.abi_base.specs.Setting.{IsWidthOfLong, with_integer};

use crate::address_space::AddressSpace;
use crate::align::Align;
use crate::data_layout::TargetDataLayout;
use crate::parse_error::TargetDataLayoutError;
use crate::parse_spec::read_spec;
use crate::parse_text::split_at_mark;
use crate::pointer_spec::PointerSpec;
use crate::setting::{AlignedWord, Setting};
use std::alloc::{AllocError, Global};

/// What the specs so far have made.
#[derive(Drop)]
pub(crate) struct Reading {
    /// The data layout.
    dl: TargetDataLayout,
    /// The bits of the integer that the alignment of 128 bits is of, 64 or more.
    widest: u64,
}

impl Reading {
    /// The alignment of lists of fields, or of a float.
    fn set_aligned(&mut self, named: AlignedWord, align: Align)
        ensures one_more { (ss : List Setting) →
            with_settings self.new.dl self.new.widest ss ≡ with_settings self.old.dl self.old.widest
            (Aligned named align ∷ ss) }
        ensures widest { self.new.widest ≡ self.old.widest }
    {
        match named {
            AlignedWord::Aggregate => self.dl.aggregate_align = align,
            AlignedWord::F16 => self.dl.f16_align = align,
            AlignedWord::F32 => self.dl.f32_align = align,
            AlignedWord::F64 => self.dl.f64_align = align,
            AlignedWord::F128 => self.dl.f128_align = align,
        }
    }

    /// The alignment of integers of `bits` bits, but for that of 128 bits.
    fn set_width(&mut self, bits: u64, align: Align)
        ensures dl { self.new.dl ≡ with_integer self.old.dl bits align }
        ensures widest { self.new.widest ≡ self.old.widest }
    {
        match bits {
            1 => self.dl.i1_align = align,
            8 => self.dl.i8_align = align,
            16 => self.dl.i16_align = align,
            32 => self.dl.i32_align = align,
            64 => self.dl.i64_align = align,
            _ => {}
        }
    }

    /// The alignment of integers of `bits` bits.
    fn set_integer(&mut self, bits: u64, align: Align)
        requires { IsWidthOfLong self.old.widest }
        ensures one_more { (ss : List Setting) →
            with_settings self.new.dl self.new.widest ss ≡ with_settings self.old.dl self.old.widest
            (Integer bits align ∷ ss) }
        ensures wide { IsWidthOfLong self.new.widest }
    {
        self.set_width(bits, align);
        if self.widest <= bits && bits <= 128 {
            self.widest = bits;
            self.dl.i128_align = align;
        }
    }

    /// The pointers of a space.
    fn set_pointers(&mut self, space: AddressSpace, spec: PointerSpec) -> Result<(), AllocError>
        ensures one_more { OnOk result ((ss : List Setting) →
            with_settings self.new.dl self.new.widest ss ≡ with_settings self.old.dl self.old.widest
            (Pointer space spec ∷ ss)) }
        ensures widest { self.new.widest ≡ self.old.widest }
        ensures err { OnErr result (self.new ≡ self.old) }
    {
        if space.0 == self.dl.default_address_space.0 {
            self.dl.default_address_space_pointer_spec = spec;
            Ok(())
        } else {
            self.dl.address_space_info.insert(space, spec)
        }
    }

    /// One spec more.
    fn set(&mut self, setting: Setting) -> Result<(), AllocError>
        requires { IsWidthOfLong self.old.widest }
        ensures one_more { OnOk result ((ss : List Setting) → with_settings self.new.dl
            self.new.widest ss ≡ with_settings self.old.dl self.old.widest (setting ∷ ss)) }
        ensures wide { OnOk result (IsWidthOfLong self.new.widest) }
        ensures err { OnErr result (self.new ≡ self.old) }
    {
        match setting {
            Setting::Order(endian) => self.dl.endian = endian,
            Setting::Instructions(space) => self.dl.instruction_address_space = space,
            Setting::Aligned(named, align) => self.set_aligned(named, align),
            Setting::Pointer(space, spec) => return self.set_pointers(space, spec),
            Setting::Integer(bits, align) => self.set_integer(bits, align),
            Setting::Vector(size, align) => return self.dl.vector_align.insert(size, align),
            Setting::Nothing => {}
        }
        Ok(())
    }
}

impl TargetDataLayout {
    /// The default data layout, with this default space.
    fn default_with(
        alloc: Global,
        default_address_space: AddressSpace,
    ) -> Result<TargetDataLayout, AllocError>
        ensures { IfOk result (λ dl. dl ≡ default_with default_address_space) }
    {
        let mut dl = TargetDataLayout::default_in(alloc)?;
        dl.default_address_space = default_address_space;
        Ok(dl)
    }

    /// Adds the space of functions with the default pointers, where it isn't known.
    fn with_instructions(mut self) -> Result<TargetDataLayout, AllocError>
        ensures { IfOk result (λ dl. dl ≡ with_instructions self) }
    {
        let space = self.instruction_address_space;
        if self.knows(space) {
            return Ok(self);
        }
        let spec = self.default_address_space_pointer_spec;
        self.address_space_info.push(space, spec)?;
        Ok(self)
    }

    /// The data layout that a string in LLVM's form says, with this default address space. What the
    /// string leaves out is as in [`TargetDataLayout::default_in`].
    ///
    /// Specs stand with `-` between them, a spec's parts with `:`. Sizes and alignments are in
    /// bits, rounded up to bytes. The last spec of a kind counts. The error is the first fault:
    /// `InvalidAddressSpace` and `InvalidBits` where a text is no number, `MissingAlignment` where
    /// a spec has none, `InvalidAlignment` where a number is none,
    /// `UnknownPointerSpecification` where a letter follows the `p` or `pf` of a pointer spec, or
    /// `OutOfMemory`.
    pub fn parse_from_llvm_datalayout_string<'a>(
        alloc: Global,
        input: &'a str,
        default_address_space: AddressSpace,
    ) -> Result<TargetDataLayout, TargetDataLayoutError<'a>>
        ensures ok { IfOk result (λ dl. data_layout_in default_address_space input.now ≡ Ok dl) }
        ensures err { IfErr result (NamesFault (data_layout_in default_address_space input.now)) }
        ensures instructions { IfOk result (λ dl. Knows dl dl.instruction_address_space) }
    {
        let dl = TargetDataLayout::default_with(alloc, default_address_space)?;
        let mut reading = Reading { dl, widest: 64 };
        let mut rest = Some(input);
        while let Some(text) = rest {
            let (spec, more) = split_at_mark(text, '-');
            let setting = read_spec(spec)?;
            reading.set(setting)?;
            rest = more;
        }
        let dl = reading.dl.with_instructions()?;
        Ok(dl)
    }
}
