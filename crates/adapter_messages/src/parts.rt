//! What the bodies of responses are made of.

use crate::json::Json;
use crate::text::Text;
use serde_json::{Value, json};
use std::alloc::{AllocError, Global};

/// A thread.
#[derive(Drop)]
pub struct Thread {
    pub id: u64,
    pub name: Text,
}

impl Json for Thread {
    ghost use Rattle.std.proofs.Common.{refl};
    ghost use Rattle.adapter_messages.specs.Parts.{thread_json};

    ghost json = { thread_json };

    fn to_value(&self, alloc: Global) -> Result<Value, AllocError> {
        json!(in alloc; {
            "id": self.id,
            "name": self.name.as_str(),
        })
    }

    ghost no_float = { λ _. refl };
}

/// A frame of a thread's stack, which stands at the instruction of that reference.
#[derive(Drop)]
pub struct StackFrame {
    pub id: u64,
    pub name: Text,
    pub instruction: Text,
}

impl Json for StackFrame {
    ghost use Rattle.std.proofs.Common.{refl};
    ghost use Rattle.adapter_messages.specs.Parts.{stack_frame_json};

    ghost json = { stack_frame_json };

    fn to_value(&self, alloc: Global) -> Result<Value, AllocError> {
        json!(in alloc; {
            "id": self.id,
            "name": self.name.as_str(),
            "line": 0u64,
            "column": 0u64,
            "instructionPointerReference": self.instruction.as_str(),
        })
    }

    ghost no_float = { λ _. refl };
}

/// Variables of a frame, which have that reference.
#[derive(Drop)]
pub struct Scope {
    pub name: Text,
    pub reference: u64,
}

impl Json for Scope {
    ghost use Rattle.std.proofs.Common.{refl};
    ghost use Rattle.adapter_messages.specs.Parts.{scope_json};

    ghost json = { scope_json };

    fn to_value(&self, alloc: Global) -> Result<Value, AllocError> {
        json!(in alloc; {
            "name": self.name.as_str(),
            "variablesReference": self.reference,
            "expensive": false,
        })
    }

    ghost no_float = { λ _. refl };
}

/// A variable; its members have that reference, 0 where it has none.
#[derive(Drop)]
pub struct Variable {
    pub name: Text,
    pub value: Text,
    pub reference: u64,
}

impl Json for Variable {
    ghost use Rattle.std.proofs.Common.{refl};
    ghost use Rattle.adapter_messages.specs.Parts.{variable_json};

    ghost json = { variable_json };

    fn to_value(&self, alloc: Global) -> Result<Value, AllocError> {
        json!(in alloc; {
            "name": self.name.as_str(),
            "value": self.value.as_str(),
            "variablesReference": self.reference,
        })
    }

    ghost no_float = { λ _. refl };
}

/// An instruction, and where it stands.
#[derive(Drop)]
pub struct Instruction {
    pub address: Text,
    pub text: Text,
}

impl Json for Instruction {
    ghost use Rattle.std.proofs.Common.{refl};
    ghost use Rattle.adapter_messages.specs.Parts.{instruction_json};

    ghost json = { instruction_json };

    fn to_value(&self, alloc: Global) -> Result<Value, AllocError> {
        json!(in alloc; {
            "address": self.address.as_str(),
            "instruction": self.text.as_str(),
        })
    }

    ghost no_float = { λ _. refl };
}

/// A breakpoint, and what there is to say of it.
#[derive(Drop)]
pub struct Breakpoint {
    pub id: u64,
    pub is_verified: bool,
    pub message: Text,
}

impl Json for Breakpoint {
    ghost use Rattle.std.proofs.Common.{refl};
    ghost use Rattle.adapter_messages.specs.Parts.{breakpoint_json};

    ghost json = { breakpoint_json };

    fn to_value(&self, alloc: Global) -> Result<Value, AllocError> {
        json!(in alloc; {
            "id": self.id,
            "verified": self.is_verified,
            "message": self.message.as_str(),
        })
    }

    ghost no_float = { λ _. refl };
}

/// Which requests are answered.
#[derive(Clone, Copy, Debug, PartialEq, Eq)]
pub struct Capabilities {
    pub configuration_done: bool,
    pub function_breakpoints: bool,
    pub step_back: bool,
    pub data_breakpoints: bool,
    pub read_memory: bool,
    pub disassemble: bool,
    pub instruction_breakpoints: bool,
    pub terminate: bool,
}

impl Json for Capabilities {
    ghost use Rattle.std.proofs.Common.{refl};
    ghost use Rattle.adapter_messages.specs.Parts.{capabilities_json};

    ghost json = { capabilities_json };

    fn to_value(&self, alloc: Global) -> Result<Value, AllocError> {
        json!(in alloc; {
            "supportsConfigurationDoneRequest": self.configuration_done,
            "supportsFunctionBreakpoints": self.function_breakpoints,
            "supportsStepBack": self.step_back,
            "supportsDataBreakpoints": self.data_breakpoints,
            "supportsReadMemoryRequest": self.read_memory,
            "supportsDisassembleRequest": self.disassemble,
            "supportsInstructionBreakpoints": self.instruction_breakpoints,
            "supportsTerminateRequest": self.terminate,
        })
    }

    ghost no_float = { λ _. refl };
}
