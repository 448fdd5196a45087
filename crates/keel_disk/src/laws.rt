//! Laws of the model, each as the contract of a function.
ghost use Rattle.keel_disk.specs.Laws.{CrashInsideCall, PlainCrashInsideCall, CallsKeepSound, CrashesComeToRest, OneImageAtRest};
ghost use Rattle.keel_disk.specs.Steady.{SettledTwice, SteadyStays, PresentStays, PresentBecomesSteady, AllReadStays, RestReads};

/// A crash inside a call leaves what one before the call could leave, or one behind it where it is answered Ok.
pub fn crash_inside_call()
    ensures images { CrashInsideCall }
    ensures plain { PlainCrashInsideCall }
{}

/// A sound device stays sound by every call, whatever is answered.
pub fn calls_keep_sound()
    ensures { CallsKeepSound }
{}

/// Behind a crash a sound device is sound and at rest.
pub fn crashes_come_to_rest()
    ensures { CrashesComeToRest }
{}

/// A crash of a device at rest leaves what reads give, and that isn't forged.
pub fn one_image_at_rest()
    ensures { OneImageAtRest }
{}

/// Operations become firm in several goes as in one.
pub fn settled_twice()
    ensures { SettledTwice }
{}

/// A name whose file is sure, whatever waiting operations are done, stays so with its file by every call that isn't about
/// it; so does one that has its file as is read.
pub fn names_stay()
    ensures steady { SteadyStays }
    ensures present { PresentStays }
{}

/// A sync of the directory that is answered Ok makes sure of every name that is read.
pub fn present_becomes_steady()
    ensures { PresentBecomesSteady }
{}

/// Reads give what was meant for as long as nothing is appended to a file on which a call failed.
pub fn all_read_stays()
    ensures stays { AllReadStays }
    ensures at_rest { RestReads }
{}
