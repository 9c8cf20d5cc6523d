//! The scripts of a host, found by the names of their pods.
ghost use Rattle.std.specs.Prelude.{◌≡◌, ℕ, List as Items, [], if◌then◌else◌, IfOk, map, option_map, string_bytes, slice_index_or};
ghost use Rattle.std.specs.Option.{is_some};
ghost use Rattle.std.specs.HashMap.{get_by_text};
ghost use Rattle.tk_script.specs.ScriptHost.{exit_in, files_in, results_for, script_at, script_of, scripted_exit};

use crate::file_table::prepared;
use crate::pod_script::PodScript;
use std::alloc::{AllocError, Global};
use std::collections::HashMap;
use std::marker::Model;
use tk_edge::Order;
use tk_types::{Bytes, List, Text};

/// Scripts, with the place of the first one of each pod, and the folder of all pods. A contract sees no places.
#[derive(Drop)]
pub(crate) struct ScriptTable {
    root: Text,
    pods: List<PodScript>,
    places: HashMap<String, usize>,
}

impl Model for ScriptTable {
    ghost use Rattle.std.specs.Prelude.{◌≡◌, ℕ, List as Items};
    ghost use Rattle.std.specs.HashMap.{get_by_text};
    ghost use Rattle.tk_script.specs.ScriptHost.{Scripts, script_at, script_of};

    ghost Value = { Scripts };

    ghost view = { λ table. record { root = table.root; pods = table.pods } };

    ghost invariant = { λ table. (pod : Items ℕ) → script_at table.pods (get_by_text table.places pod) ≡ script_of table.pods pod };
}

impl ScriptTable {
    /// These scripts of pods in the folder `root`. The only error is want of memory.
    pub(crate) fn new(alloc: Global, root: Text, pods: List<PodScript>) -> Result<Self, AllocError>
        ensures { IfOk result (λ table. table ≡ record { root = root; pods = pods }) }
    {
        let places = places_of(alloc, pods.as_slice())?;
        Ok(ScriptTable { root, pods, places })
    }

    /// The script of a pod.
    fn script(&self, pod: &str) -> Option<&PodScript>
        ensures { option_map (λ s. s.now) result ≡ script_of self.now.pods pod.now }
    {
        match self.places.get(pod) {
            Some(place) => self.pods.as_slice().get(*place),
            None => None,
        }
    }

    /// The exit that the order's step has.
    pub(crate) fn exit_for(&self, order: &Order) -> u8
        ensures { result ≡ scripted_exit self.now.pods order.now }
    {
        match self.script(order.pod.as_str()) {
            Some(script) => exit_at(script.exits.as_slice(), u64::from(order.step)),
            None => 0,
        }
    }

    /// What a start of a step of the pod leaves, if none was started.
    pub(crate) fn results(
        &self,
        alloc: Global,
        begun: &HashMap<String, ()>,
        pod: &Text,
    ) -> Result<Vec<(String, Bytes)>, AllocError>
        ensures { IfOk result (λ results. map (λ r. (string_bytes r.0, r.1)) results.items
            ≡ (if is_some (get_by_text begun.now pod.now) then [] else results_for self.now pod.now)) }
    {
        if begun.get(pod.as_str()).is_some() {
            return Ok(Vec::new(alloc));
        }
        match self.script(pod.as_str()) {
            Some(script) => {
                prepared(
                    alloc,
                    self.root.as_str(),
                    pod.as_str(),
                    script.files.as_slice(),
                )
            }
            None => Ok(Vec::new(alloc)),
        }
    }
}

/// The place of the first script of each pod.
fn places_of(alloc: Global, pods: &[PodScript]) -> Result<HashMap<String, usize>, AllocError>
    ensures { IfOk result (λ places. (pod : Items ℕ) → script_at pods.now (get_by_text places pod) ≡ script_of pods.now pod) }
{
    let mut places = HashMap::new(alloc);
    let mut place = pods.len();
    while place > 0 {
        place -= 1;
        let pod = String::from_str(alloc, pods[place].pod.as_str())?;
        places.insert(pod, place)?;
    }
    Ok(places)
}

/// The exit at a place, and 0 where there is none.
pub(crate) fn exit_at(exits: &[u8], place: u64) -> u8
    ensures { result ≡ slice_index_or exits.now place 0 }
{
    match exits.get(place as usize) {
        Some(exit) => *exit,
        None => 0,
    }
}
