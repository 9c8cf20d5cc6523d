//! Laws of the definitions that reading goes by.

ghost use Rattle.tk_read_laws.specs.Read.{ObjectsAreRead};

/// Where reading finds no fault, each object is as `IsRead` says.
pub fn objects_are_read()
    ensures { ObjectsAreRead }
{}
