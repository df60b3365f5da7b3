//! The calls that a host in memory took.
ghost use Rattle.std.specs.Prelude.{◌≡◌, ◌∷◌, ◌++◌, [], IfOk, Some, map, option_map, string_bytes};
ghost use Rattle.dpl_host.specs.Calls.{Logs};
ghost use Rattle.dpl_host.specs.Kept.{call_of, call_view, calls_of};

use crate::memory::Kind;
use std::alloc::{AllocError, Global};

/// A call that a host took: its kind, and the name of its file, which is empty where something is said.
#[derive(Debug, Drop)]
pub struct Call {
    kind: Kind,
    name: String,
}

impl Call {
    pub fn kind(&self) -> Kind
        ensures { result ≡ self.now.kind }
    {
        self.kind
    }

    /// The bytes of the name.
    pub fn name(&self) -> &str
        ensures { result.now ≡ string_bytes self.now.name }
    {
        self.name.as_str()
    }
}

/// The calls so far, in order. From the first on that finds no memory, none is kept.
#[derive(Drop)]
pub(crate) struct Calls {
    alloc: Global,
    list: Option<Vec<Call>>,
}

impl Calls {
    pub(crate) fn new(alloc: Global) -> Calls
        ensures { calls_of result ≡ Some [] }
    {
        Calls {
            alloc,
            list: Some(Vec::new(alloc)),
        }
    }

    /// The calls, where they were kept.
    pub(crate) fn list(&self) -> Option<&[Call]>
        ensures { option_map (λ list. map call_view list.now) result ≡ calls_of self.now }
    {
        match &self.list {
            Some(list) => Some(list.as_slice()),
            None => None,
        }
    }

    /// Keeps one more call, unless that finds no memory.
    pub(crate) fn note(&mut self, kind: Kind, name: &str)
        ensures { Logs (calls_of self.old) (call_of kind name.now) (calls_of self.new) }
    {
        let Some(list) = self.list.take() else {
            return;
        };
        if let Ok(list) = with_call(self.alloc, list, kind, name) {
            self.list = Some(list);
        }
    }
}

/// The calls and one more behind them.
fn with_call(
    alloc: Global,
    mut list: Vec<Call>,
    kind: Kind,
    name: &str,
) -> Result<Vec<Call>, AllocError>
    ensures { IfOk result (λ longer. map call_view longer.items ≡ map call_view list.items ++ (call_of kind name.now ∷ [])) }
{
    let name = String::from_str(alloc, name)?;
    list.push(Call { kind, name })?;
    Ok(list)
}
