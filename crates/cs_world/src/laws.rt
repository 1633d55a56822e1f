// Laws of the devices. Each function does nothing: it is there for its contract.
ghost use Rattle.cs_world.specs.Devices.{NothingCalls, OneDevice};

/// No event calls both the object store and the log, whatever it is answered.
pub fn events_call_one_device()
    ensures { OneDevice }
{}

/// An end, a check that holds bits back and a refusal add nothing but their entry, and call no device.
pub fn steps_that_add_nothing_call_no_device()
    ensures { NothingCalls }
{}
