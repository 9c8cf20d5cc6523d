ghost use Rattle.std.specs.Prelude.{◌≡◌};
ghost use Rattle.tk_names.specs.Rules.{is_dns_label as dns_label, is_object_name as object_name, is_name_prefix as name_prefix, is_param_name as param_name, is_task_result_name as task_result_name, is_pipeline_result_name as pipeline_result_name, is_env_name as env_name, is_sub_path as sub_path};

use tk_fields::TextRule;
use tk_types::Fault;

/// Names of pipeline tasks, steps and workspaces; another text is `BadName`.
pub struct DnsLabel;

impl TextRule for DnsLabel {
    ghost obeys = { dns_label };

    ghost fault_number = { 8 };

    fn is_obeyed(text: &str) -> bool {
        tk_names::is_dns_label(text)
    }

    fn number() -> u8 {
        Fault::BAD_NAME
    }
}

/// Names of objects and claims; another text is `BadName`.
pub struct ObjectName;

impl TextRule for ObjectName {
    ghost obeys = { object_name };

    ghost fault_number = { 8 };

    fn is_obeyed(text: &str) -> bool {
        tk_names::is_object_name(text)
    }

    fn number() -> u8 {
        Fault::BAD_NAME
    }
}

/// What stands before the digits of a generated name; another text is `BadName`.
pub struct NamePrefix;

impl TextRule for NamePrefix {
    ghost obeys = { name_prefix };

    ghost fault_number = { 8 };

    fn is_obeyed(text: &str) -> bool {
        tk_names::is_name_prefix(text)
    }

    fn number() -> u8 {
        Fault::BAD_NAME
    }
}

/// Names of parameters; another text is `BadName`.
pub struct ParamName;

impl TextRule for ParamName {
    ghost obeys = { param_name };

    ghost fault_number = { 8 };

    fn is_obeyed(text: &str) -> bool {
        tk_names::is_param_name(text)
    }

    fn number() -> u8 {
        Fault::BAD_NAME
    }
}

/// Names of the results of a Task; another text is `BadName`.
pub struct TaskResultName;

impl TextRule for TaskResultName {
    ghost obeys = { task_result_name };

    ghost fault_number = { 8 };

    fn is_obeyed(text: &str) -> bool {
        tk_names::is_task_result_name(text)
    }

    fn number() -> u8 {
        Fault::BAD_NAME
    }
}

/// Names of the results of a Pipeline; another text is `BadName`.
pub struct PipelineResultName;

impl TextRule for PipelineResultName {
    ghost obeys = { pipeline_result_name };

    ghost fault_number = { 8 };

    fn is_obeyed(text: &str) -> bool {
        tk_names::is_pipeline_result_name(text)
    }

    fn number() -> u8 {
        Fault::BAD_NAME
    }
}

/// Names of variables of a step; another text is `BadName`.
pub struct EnvName;

impl TextRule for EnvName {
    ghost obeys = { env_name };

    ghost fault_number = { 8 };

    fn is_obeyed(text: &str) -> bool {
        tk_names::is_env_name(text)
    }

    fn number() -> u8 {
        Fault::BAD_NAME
    }
}

/// Paths below a workspace; another text is `BadName`.
pub struct SubPath;

impl TextRule for SubPath {
    ghost obeys = { sub_path };

    ghost fault_number = { 8 };

    fn is_obeyed(text: &str) -> bool {
        tk_names::is_sub_path(text)
    }

    fn number() -> u8 {
        Fault::BAD_NAME
    }
}
