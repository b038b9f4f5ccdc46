//! Laws of the order of keys, of spellings, and of the order of values, each the contract of a function that
//! does nothing.

ghost use Rattle.std.specs.Prelude.{List};
ghost use Rattle.column_values.specs.declared.field.FieldType.{FieldType};
ghost use Rattle.column_values.specs.Laws.{IsStrict, IsTransitive, IsReflexive, Symmetric, Agrees, Splits, IsTotal};
ghost use Rattle.column_values.specs.Laws.{HasOneSpelling, HasOneValue, SpellingSpells, OrdersValues};

/// The keys of any fields have a strict order, up to equality.
pub fn keys_have_an_order()
    ensures strict { (kinds : List FieldType) → IsStrict kinds }
    ensures transitive { (kinds : List FieldType) → IsTransitive kinds }
    ensures reflexive { (kinds : List FieldType) → IsReflexive kinds }
    ensures symmetric { (kinds : List FieldType) → Symmetric kinds }
    ensures agrees { (kinds : List FieldType) → Agrees kinds }
    ensures splits { (kinds : List FieldType) → Splits kinds }
    ensures total { (kinds : List FieldType) → IsTotal kinds }
{}

/// A value of a type has one spelling, and bytes spell one value at the most.
pub fn spellings_are_unique()
    ensures one_spelling { HasOneSpelling }
    ensures one_value { HasOneValue }
    ensures spells { SpellingSpells }
{}

/// The bytes of moments, years and decimals order as the values do.
pub fn bytes_order_as_values()
    ensures { OrdersValues }
{}
