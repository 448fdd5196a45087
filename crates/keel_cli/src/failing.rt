// What an opening or a read that failed is answered.
ghost use Rattle.std.specs.Prelude.{◌≡◌, [], ◌∷◌, IfOk, IsErr, Err, Some};
ghost use Rattle.keel_open.specs.declared.refusal.OpenRefusal.TheVariants as refused;
ghost use Rattle.keel_table.specs.declared.fault.TableFault.TheVariants as faults;
ghost use Rattle.keel_cli.specs.Runs.{fault_replies, opening_replies};

use keel_base::OutOfMemory;
use keel_open::OpenRefusal;
use keel_script::Reply;
use keel_table::TableFault;

/// What an opening that was refused is answered.
pub(crate) fn refusal_reply(refusal: OpenRefusal) -> Result<Reply, OutOfMemory>
    ensures printed { IfOk result (λ reply. opening_replies (Err refusal) ≡ Some (reply ∷ [])) }
    ensures cut { IsErr result → refusal ≡ refused.OutOfMemory }
{
    match refusal {
        OpenRefusal::Device(fault) => Ok(Reply::RefusedDevice(fault)),
        OpenRefusal::NoCurrent { file } => Ok(Reply::RefusedNoCurrent(file)),
        OpenRefusal::BadCurrent { bytes } => Ok(Reply::RefusedBadCurrent(bytes)),
        OpenRefusal::DamagedManifest { at } => Ok(Reply::RefusedDamagedManifest { at }),
        OpenRefusal::MissingTable { number } => Ok(Reply::RefusedMissingTable { number }),
        OpenRefusal::BadTable { number, .. } => Ok(Reply::RefusedBadTable { number }),
        OpenRefusal::BadLog { log, at } => Ok(Reply::RefusedBadLog { number: log, at }),
        OpenRefusal::LogGap {
            log,
            expected,
            found,
        } => Ok(Reply::RefusedLogGap {
            number: log,
            expected,
            found,
        }),
        OpenRefusal::OutOfMemory => Err(OutOfMemory),
    }
}

/// What a read is answered for which the table of that number wasn't read.
pub(crate) fn fault_reply(number: u64, fault: TableFault) -> Result<Reply, OutOfMemory>
    ensures printed { IfOk result (λ reply. fault_replies number fault ≡ Some (reply ∷ [])) }
    ensures cut { IsErr result → fault ≡ faults.OutOfMemory }
{
    match fault {
        TableFault::Device(cause) => Ok(Reply::ReadFault(cause)),
        TableFault::Absent => Ok(Reply::AbsentTable { number }),
        TableFault::BadCheck { stored, computed } => Ok(Reply::BadCheck { stored, computed }),
        TableFault::BadShape { at } => Ok(Reply::BadShape { at }),
        TableFault::OutOfMemory => Err(OutOfMemory),
    }
}
