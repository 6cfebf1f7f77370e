//! The words of faults.
use desk_store::{CreateError, OpenFault};

pub fn create_word(fault: CreateError) -> &'static str {
    match fault {
        CreateError::NotEmpty => "NotEmpty",
        CreateError::Store => "Store",
        CreateError::Memory => "Memory",
    }
}

pub fn open_word(fault: OpenFault) -> &'static str {
    match fault {
        OpenFault::NotADesk => "NotADesk",
        OpenFault::NewerVersion => "NewerVersion",
        OpenFault::Store => "Store",
        OpenFault::Memory => "Memory",
    }
}
