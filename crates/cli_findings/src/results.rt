//! Results of a log of SARIF 2.1.0, one after the other.

ghost use Rattle.std.specs.Prelude.{◌≡◌, ◌≤◌, ◌++◌, [], ◌∷◌, false, map, OnOk};
ghost use Rattle.serde_json.specs.Data.{depth, items_depth};
ghost use Rattle.serde_json.specs.View.{view as data_of, items_of};
ghost use Rattle.serde_json.specs.Written.{has_float, items_have_float};

use serde_json::Value;
use std::alloc::{AllocError, Global};

/// Results of a log, of which none holds a float, and none nests deeper than a parser of the log reads.
#[derive(Drop)]
pub struct Results {
    values: Vec<Value>,
    ghost plain: { items_have_float (items_of (map data_of values.items)) ≡ false },
    ghost flat: { items_depth (items_of (map data_of values.items)) ≤ 6 },
}

impl Results {
    ghost use Rattle.cli_findings.specs.Results.{results_seen};

    /// No result.
    pub fn new(alloc: Global) -> Results
        ensures { results_seen result ≡ [] }
    {
        Results {
            values: Vec::new(alloc),
        }
    }

    /// Results of these values.
    pub fn of(values: Vec<Value>) -> Results
        requires plain { items_have_float (items_of (map data_of values.items)) ≡ false }
        requires flat { items_depth (items_of (map data_of values.items)) ≤ 6 }
        ensures { results_seen result ≡ map data_of values.items }
    {
        Results { values }
    }

    /// Adds a result.
    pub(crate) fn push(&mut self, value: Value) -> Result<(), AllocError>
        requires plain { has_float (data_of value) ≡ false }
        requires flat { depth (data_of value) ≤ 6 }
        ensures { OnOk result (results_seen self.new
            ≡ results_seen self.old ++ data_of value ∷ []) }
    {
        self.values.push(value)?;
        Ok(())
    }

    /// The values of the results.
    pub(crate) fn values(self) -> Vec<Value>
        ensures values { map data_of result.items ≡ results_seen self }
        ensures plain { items_have_float (items_of (map data_of result.items)) ≡ false }
        ensures flat { items_depth (items_of (map data_of result.items)) ≤ 6 }
    {
        self.values
    }

    /// Adds the results of another list behind these.
    ///
    /// # Errors
    ///
    /// Where a request for memory was refused.
    pub fn append(&mut self, more: Results) -> Result<(), AllocError>
        ensures { OnOk result (results_seen self.new
            ≡ results_seen self.old ++ results_seen more) }
    {
        for value in more.values() {
            self.push(value)?;
        }
        Ok(())
    }
}
