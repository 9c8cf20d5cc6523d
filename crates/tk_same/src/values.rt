use crate::same::Same;
use tk_types::{
    Binding, Condition, Outcome, Pair, Param, ParamType, ResultSpec, SkipReason, Space, Stop, Value,
};

impl Same for Pair {
    fn is_same(&self, other: &Self) -> bool {
        self.key.is_same(&other.key) && self.value.is_same(&other.value)
    }
}

impl Same for Value {
    fn is_same(&self, other: &Self) -> bool {
        match (self, other) {
            (Value::Str(text), Value::Str(other)) => text.is_same(other),
            (Value::Arr(texts), Value::Arr(others)) => texts.is_same(others),
            (Value::Obj(pairs), Value::Obj(others)) => pairs.is_same(others),
            _ => false,
        }
    }
}

impl Same for Param {
    fn is_same(&self, other: &Self) -> bool {
        self.name.is_same(&other.name) && self.value.is_same(&other.value)
    }
}

impl Same for ParamType {
    fn is_same(&self, other: &Self) -> bool {
        match (self, other) {
            (ParamType::Str, ParamType::Str) => true,
            (ParamType::Arr, ParamType::Arr) => true,
            (ParamType::Obj, ParamType::Obj) => true,
            _ => false,
        }
    }
}

impl Same for ResultSpec {
    fn is_same(&self, other: &Self) -> bool {
        self.name.is_same(&other.name) && self.kind.is_same(&other.kind)
    }
}

impl Same for Binding {
    fn is_same(&self, other: &Self) -> bool {
        self.params.is_same(&other.params)
    }
}

impl Same for Outcome {
    fn is_same(&self, other: &Self) -> bool {
        match (self, other) {
            (Outcome::Succeeded(results), Outcome::Succeeded(others)) => results.is_same(others),
            (
                Outcome::Failed { exit, results },
                Outcome::Failed {
                    exit: other_exit,
                    results: others,
                },
            ) => exit.is_same(other_exit) && results.is_same(others),
            (Outcome::TimedOut, Outcome::TimedOut) => true,
            (Outcome::Cancelled, Outcome::Cancelled) => true,
            (Outcome::Lost, Outcome::Lost) => true,
            _ => false,
        }
    }
}

impl Same for Space {
    fn is_same(&self, other: &Self) -> bool {
        self.name.is_same(&other.name)
            && self.claim.is_same(&other.claim)
            && self.sub.is_same(&other.sub)
    }
}

impl Same for Stop {
    fn is_same(&self, other: &Self) -> bool {
        *self == *other
    }
}

impl Same for SkipReason {
    fn is_same(&self, other: &Self) -> bool {
        match (self, other) {
            (SkipReason::Parent, SkipReason::Parent) => true,
            (SkipReason::Missing, SkipReason::Missing) => true,
            (SkipReason::Broken, SkipReason::Broken) => true,
            (SkipReason::When, SkipReason::When) => true,
            (SkipReason::EmptyMatrix, SkipReason::EmptyMatrix) => true,
            (SkipReason::Stopped(stop), SkipReason::Stopped(other)) => stop.is_same(other),
            _ => false,
        }
    }
}

impl Same for Condition {
    fn is_same(&self, other: &Self) -> bool {
        self.holds == other.holds && self.reason.is_same(&other.reason)
    }
}
