//! The law of the device whose power may fail.

ghost use Rattle.pp_test_durable.specs.Power.{PowerIsDurable};

/// After a sync that was done a crash leaves what was written before. A page that was written since may be torn.
pub fn crashing_devices_are_durable()
    ensures { PowerIsDurable }
{}
