ghost use Rattle.std.specs.Prelude.{◌≡◌, ◌<◌, ℕ, List as Items, length, slice_get, Some, option_copied};
ghost use Rattle.std.specs.Map.{keys_of};
ghost use Rattle.tk_cache.specs.Children.{children_of};
ghost use Rattle.tk_places.specs.Places.{IsPlaceOf};
ghost use Rattle.tk_cache.specs.Views.{named, object_in, seen, version_in};

use crate::cache::Cache;
use crate::objects::{Objects, object_of};
use tk_journal::{Fronts, PodState, RunState, TaskRunState};
use tk_types::{Kind, Text};

/// An object by its name.
fn object<'a, T>(objects: &'a Objects<T>, name: &str) -> Option<&'a T>
    ensures { option_copied result ≡ object_in (named objects.now) name.now }
{
    object_of(objects, name)
}

/// An object's version, and 0 where it isn't there.
fn version_of<T>(objects: &Objects<T>, name: &str) -> u64
    ensures { result ≡ version_in (named objects.now) name.now }
{
    match objects.get(name) {
        Some(held) => held.version,
        None => 0,
    }
}

/// The name at a place, in order of creation.
fn name_at<T>(objects: &Objects<T>, place: u64) -> &str
    requires within { place < length (keys_of (named objects.now)) }
    ensures { slice_get (keys_of (named objects.now)) place ≡ Some result.now }
{
    match objects.get_index(place as usize) {
        Some((name, _)) => name.as_str(),
        None => unreachable!(),
    }
}

/// The place of a name, in order of creation.
fn place_of<T>(objects: &Objects<T>, name: &str) -> Option<u64>
    ensures { IsPlaceOf (keys_of (named objects.now)) name.now result }
{
    match objects.get_index_of(name) {
        Some(place) => Some(place as u64),
        None => None,
    }
}

/// The object at a place, in order of creation.
fn at<T>(objects: &Objects<T>, place: u64) -> &T
    requires within { place < length (keys_of (named objects.now)) }
    ensures { (name : Items ℕ) → slice_get (keys_of (named objects.now)) place ≡ Some name → object_in (named objects.now) name ≡ Some result.now }
{
    match objects.get_index(place as usize) {
        Some((_, held)) => &held.object,
        None => unreachable!(),
    }
}

impl Cache {
    /// The fronts.
    pub fn front(&self) -> Fronts
        ensures { result ≡ self.now.fronts }
    {
        self.fronts
    }

    /// The version of an object, and 0 where it isn't there.
    pub fn version(&self, kind: Kind, name: &str) -> u64
        ensures { result ≡ (seen self.now).versions kind name.now }
    {
        match kind {
            Kind::Runs => version_of(&self.runs, name),
            Kind::TaskRuns => version_of(&self.task_runs, name),
            Kind::Pods => version_of(&self.pods, name),
        }
    }

    /// A run by its name.
    pub fn run(&self, name: &str) -> Option<&RunState>
        ensures { option_copied result ≡ (seen self.now).view.run name.now }
    {
        object(&self.runs, name)
    }

    /// A TaskRun by its name.
    pub fn task_run(&self, name: &str) -> Option<&TaskRunState>
        ensures { option_copied result ≡ (seen self.now).view.task_run name.now }
    {
        object(&self.task_runs, name)
    }

    /// A pod by its name.
    pub fn pod(&self, name: &str) -> Option<&PodState>
        ensures { option_copied result ≡ (seen self.now).view.pod name.now }
    {
        object(&self.pods, name)
    }

    /// How many runs there are.
    pub fn run_count(&self) -> u64
        ensures { result ≡ length (seen self.now).view.runs }
    {
        self.runs.len() as u64
    }

    /// How many TaskRuns there are.
    pub fn task_run_count(&self) -> u64
        ensures { result ≡ length (seen self.now).view.task_runs }
    {
        self.task_runs.len() as u64
    }

    /// How many pods there are.
    pub fn pod_count(&self) -> u64
        ensures { result ≡ length (seen self.now).view.pods }
    {
        self.pods.len() as u64
    }

    /// The name of the run at a place, in order of creation.
    pub fn run_name(&self, place: u64) -> &str
        requires within { place < length (seen self.now).view.runs }
        ensures { slice_get (seen self.now).view.runs place ≡ Some result.now }
    {
        name_at(&self.runs, place)
    }

    /// The name of the TaskRun at a place, in order of creation.
    pub fn task_run_name(&self, place: u64) -> &str
        requires within { place < length (seen self.now).view.task_runs }
        ensures { slice_get (seen self.now).view.task_runs place ≡ Some result.now }
    {
        name_at(&self.task_runs, place)
    }

    /// The name of the pod at a place, in order of creation.
    pub fn pod_name(&self, place: u64) -> &str
        requires within { place < length (seen self.now).view.pods }
        ensures { slice_get (seen self.now).view.pods place ≡ Some result.now }
    {
        name_at(&self.pods, place)
    }

    /// The run at a place, in order of creation.
    pub fn run_at(&self, place: u64) -> &RunState
        requires within { place < length (seen self.now).view.runs }
        ensures { (name : Items ℕ) → slice_get (seen self.now).view.runs place ≡ Some name → (seen self.now).view.run name ≡ Some result.now }
    {
        at(&self.runs, place)
    }

    /// The TaskRun at a place, in order of creation.
    pub fn task_run_at(&self, place: u64) -> &TaskRunState
        requires within { place < length (seen self.now).view.task_runs }
        ensures { (name : Items ℕ) → slice_get (seen self.now).view.task_runs place ≡ Some name → (seen self.now).view.task_run name ≡ Some result.now }
    {
        at(&self.task_runs, place)
    }

    /// The pod at a place, in order of creation.
    pub fn pod_at(&self, place: u64) -> &PodState
        requires within { place < length (seen self.now).view.pods }
        ensures { (name : Items ℕ) → slice_get (seen self.now).view.pods place ≡ Some name → (seen self.now).view.pod name ≡ Some result.now }
    {
        at(&self.pods, place)
    }

    /// The place of the TaskRun of this name, in order of creation, None where there is none.
    pub fn task_run_place(&self, name: &str) -> Option<u64>
        ensures { IsPlaceOf (seen self.now).view.task_runs name.now result }
    {
        place_of(&self.task_runs, name)
    }

    /// The place of the pod of this name, in order of creation, None where there is none.
    pub fn pod_place(&self, name: &str) -> Option<u64>
        ensures { IsPlaceOf (seen self.now).view.pods name.now result }
    {
        place_of(&self.pods, name)
    }

    /// The names of a run's TaskRuns, in order of creation.
    pub fn children(&self, run: &str) -> &[Text]
        ensures { result.now ≡ children_of (seen self.now).view run.now }
    {
        self.owned.of(run)
    }
}
