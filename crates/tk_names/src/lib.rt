//! The names that Tekton gives to children, pods and generated objects, the rules that names obey, and names that
//! clash. A rule's test answers exactly as its definition, and takes no memory. A child's name has at most 63 bytes:
//! a longer one keeps its front and ends in the hash of the whole. `clash` finds the first name that stood earlier.
//!
//! `children.rt` has the names of children, pods and generated objects, `rules.rt` the rules that names obey, each
//! decided both ways, `clashes.rt` the first name that stood earlier.
//!
//! ```text
//! child_name(alloc, "r", "t", Some(0))?       "r-t-0"
//! pod_name(alloc, "r-a", 2)?                  "r-a-pod-2"
//! generated(alloc, "build-", 36)?             "build-00010"
//! is_object_name("a.b")                       true
//! clash(alloc, &[a, b, a])?                   Some((0, 2)), where a and b are texts that differ
//! ```
#![tactic(auto)]

mod children;
mod clashes;
pub mod laws;
mod rules;

pub use children::{child_name, generated, pod_name, shorten};
pub use clashes::clash;
pub use rules::{
    is_dns_label, is_env_name, is_name_prefix, is_object_name, is_object_param_name, is_param_name,
    is_pipeline_result_name, is_sub_path, is_task_result_name,
};
