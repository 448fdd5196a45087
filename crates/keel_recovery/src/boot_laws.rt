// What a device keeps while a store boots, and what follows, each as the contract of a function.
ghost use Rattle.keel_recovery.specs.BootLaws.{BootingStands};
ghost use Rattle.keel_recovery.specs.BootRoll.{RollGives};
ghost use Rattle.keel_recovery.specs.BootTurns.{BootCallKeeps};

/// The device of a store whose boot hasn't cleared stands for its story.
pub fn booting_stands()
    ensures { BootingStands }
{}

/// The edit of a boot's roll gives a version whose tables say what the story says.
pub fn roll_gives()
    ensures { RollGives }
{}

/// Whatever a call of a boot is answered, the device stays one of a store that boots, or that has cleared.
pub fn boot_call_keeps()
    ensures { BootCallKeeps }
{}
