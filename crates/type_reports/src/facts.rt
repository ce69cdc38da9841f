//! What a type's JSON object says of its size and its fields.

ghost use Rattle.std.specs.Prelude.{◌≡◌, ◌++◌, ◌∷◌, [], IfOk, OnOk, map, codes};
ghost use Rattle.std.specs.Option.{option_map};
ghost use Rattle.serde_json.specs.View.{items_view, view};
ghost use Rattle.type_reports.specs.Facts.{all_said, fact_read, field_said, fields_said, list_in, number_in, text_in, variants_said};

use serde_json::Value;
use std::alloc::{AllocError, Global};

/// A field: what it is called, behind its variant's name and a dot where it is one of a variant; where it lies, and how
/// large it is, in bytes.
#[derive(Drop)]
pub struct FieldFact {
    /// What it is called.
    pub name: String,
    /// Where it lies.
    pub offset: u64,
    /// How large it is.
    pub size: u64,
}

/// A type's size and alignment in bytes, and its fields.
#[derive(Drop)]
pub struct TypeFacts {
    /// How large it is.
    pub size: u64,
    /// How it is aligned.
    pub align: u64,
    /// Its fields, and those of its variants.
    pub fields: Vec<FieldFact>,
}

/// A number of an object; 0 where it has none of this name.
pub fn number_in(object: &Value, key: &str) -> u64
    ensures { result ≡ number_in key.now (view object.now) }
{
    match object.get(key) {
        Some(value) => value.as_u64().unwrap_or(0),
        None => 0,
    }
}

/// A text of an object, where it has one of this name.
pub fn text_in<'a>(object: &'a Value, key: &str) -> Option<&'a str>
    ensures { option_map (λ text. text.now) result ≡ text_in key.now (view object.now) }
{
    match object.get(key) {
        Some(value) => value.as_str(),
        None => None,
    }
}

/// The list of an object; an empty one where it has none of this name.
pub fn list_in<'a>(object: &'a Value, key: &str) -> &'a [Value]
    ensures { items_view result.now ≡ list_in key.now (view object.now) }
{
    match object.get(key) {
        Some(value) => match value.as_array() {
            Some(list) => list,
            None => &[],
        },
        None => &[],
    }
}

/// What a field's object says, behind the name of its variant where it is of one.
fn fact_of(alloc: Global, variant: Option<&str>, field: &Value) -> Result<FieldFact, AllocError>
    ensures { IfOk result (λ fact. fact_read fact ≡ field_said (option_map (λ text. text.now) variant.entry) (view field.now)) }
{
    let mut name = String::new(alloc);
    if let Some(variant) = variant {
        name.push_str(variant)?;
        name.push_str(".")?;
    }
    if let Some(own) = text_in(field, "name") {
        name.push_str(own)?;
    }
    Ok(FieldFact {
        name,
        offset: number_in(field, "offset"),
        size: number_in(field, "size"),
    })
}

/// Puts a field behind the others.
fn put_fact(all: &mut Vec<FieldFact>, fact: FieldFact) -> Result<(), AllocError>
    ensures { OnOk result (map fact_read all.new.items ≡ map fact_read all.old.items ++ fact_read fact ∷ []) }
{
    all.push(fact)?;
    Ok(())
}

/// Puts the fields of a list behind the others, each behind the name of its variant where it is of one.
#[tactic(auto, using(crate::proofs::FactLists::fields_on, crate::proofs::FactLists::fields_end))]
fn put_fields(
    alloc: Global,
    all: &mut Vec<FieldFact>,
    variant: Option<&str>,
    fields: &[Value],
) -> Result<(), AllocError>
    ensures { OnOk result (map fact_read all.new.items
        ≡ map fact_read all.old.items ++ fields_said (option_map (λ text. text.now) variant.entry) (items_view fields.now)) }
{
    for field in fields {
        let fact = fact_of(alloc, variant, field)?;
        put_fact(all, fact)?;
    }
    Ok(())
}

/// Puts the fields of variants behind the others.
#[tactic(auto, using(crate::proofs::FactLists::variants_on, crate::proofs::FactLists::variants_end))]
fn put_variants(
    alloc: Global,
    all: &mut Vec<FieldFact>,
    variants: &[Value],
) -> Result<(), AllocError>
    ensures { OnOk result (map fact_read all.new.items ≡ map fact_read all.old.items ++ variants_said (items_view variants.now)) }
{
    for variant in variants {
        put_fields(
            alloc,
            all,
            text_in(variant, "name"),
            list_in(variant, "fields"),
        )?;
    }
    Ok(())
}

/// The fields of a type, and those of its variants.
fn fields_of(alloc: Global, ty: &Value) -> Result<Vec<FieldFact>, AllocError>
    ensures { IfOk result (λ fields. map fact_read fields.items ≡ all_said (view ty.now)) }
{
    let mut fields = Vec::new(alloc);
    put_fields(alloc, &mut fields, None, list_in(ty, "fields"))?;
    put_variants(alloc, &mut fields, list_in(ty, "variants"))?;
    Ok(fields)
}

impl TypeFacts {
    /// What an object says of a type. An error comes where a growth of memory was refused.
    pub fn of(alloc: Global, ty: &Value) -> Result<TypeFacts, AllocError>
        ensures size { IfOk result (λ facts. facts.size ≡ number_in (codes "size") (view ty.now)) }
        ensures align { IfOk result (λ facts. facts.align ≡ number_in (codes "align") (view ty.now)) }
        ensures fields { IfOk result (λ facts. map fact_read facts.fields.items ≡ all_said (view ty.now)) }
    {
        let fields = fields_of(alloc, ty)?;
        Ok(TypeFacts {
            size: number_in(ty, "size"),
            align: number_in(ty, "align"),
            fields,
        })
    }
}
