// The three kinds of values.
ghost use Rattle.std.specs.Prelude.{◌≡◌, false, Some, None, refl};
ghost use Rattle.plan.specs.declared.kind.ValueKind.{ValueKind};
ghost use Rattle.value.specs.declared.types.Value.{Value};
ghost use Rattle.column.specs.Meaning.{kind_of, same_kind, word_kind, word_value, int96_kind, int96_value, run_kind, run_value};
ghost use Rattle.column.specs.Delivery.{zero_of};

use plan::ValueKind;
use value::{Int96, Run, Value};

/// A kind of value that a column can hold.
pub trait ColumnValue: Copy {
    ghost kind: { ValueKind };

    ghost val: { Self → Value };

    /// The kind of these values.
    fn value_kind() -> ValueKind
        ensures { result ≡ kind };

    /// A value that stands where there is none.
    fn zero() -> Self
        ensures { val result ≡ zero_of kind };

    /// This as a value of any kind.
    // With `from_value` the trait's own maps, told by `val` and `kind`: as bounds `From` and `TryFrom` would ask more of an
    // implementor, and leave these two to be tied to them.
    fn to_value(self) -> Value
        ensures { result ≡ val self };

    /// A value of any kind as one of this, if it is of this kind.
    fn from_value(value: Value) -> Option<Self>
        ensures { elim result [ Some v ↦ val v ≡ value | None ↦ same_kind (kind_of value) kind ≡ false ] };

    ghost of_its_kind: { (v : Self) → kind_of (val v) ≡ kind };
}

impl ColumnValue for u64 {
    ghost kind = { word_kind };

    ghost val = { word_value };

    ghost of_its_kind = { λ v. refl };

    fn value_kind() -> ValueKind {
        ValueKind::Word
    }

    fn zero() -> u64 {
        0
    }

    fn to_value(self) -> Value {
        Value::Word(self)
    }

    fn from_value(value: Value) -> Option<u64> {
        match value {
            Value::Word(v) => Some(v),
            _ => None,
        }
    }
}

impl ColumnValue for Int96 {
    ghost kind = { int96_kind };

    ghost val = { int96_value };

    ghost of_its_kind = { λ v. refl };

    fn value_kind() -> ValueKind {
        ValueKind::Int96
    }

    fn zero() -> Int96 {
        Int96::default()
    }

    fn to_value(self) -> Value {
        Value::Int96(self)
    }

    fn from_value(value: Value) -> Option<Int96> {
        match value {
            Value::Int96(v) => Some(v),
            _ => None,
        }
    }
}

impl ColumnValue for Run {
    ghost kind = { run_kind };

    ghost val = { run_value };

    ghost of_its_kind = { λ v. refl };

    fn value_kind() -> ValueKind {
        ValueKind::Run
    }

    fn zero() -> Run {
        Run::default()
    }

    fn to_value(self) -> Value {
        Value::Run(self)
    }

    fn from_value(value: Value) -> Option<Run> {
        match value {
            Value::Run(v) => Some(v),
            _ => None,
        }
    }
}
