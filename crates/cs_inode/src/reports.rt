// The flushes that are sent again after a reconnect.
ghost use Rattle.std.specs.Prelude.{◌≡◌, IfOk};
ghost use Rattle.std.specs.Option.{option_copied};
ghost use Rattle.cs_capsnap.specs.CapSnaps.{unacked};
ghost use Rattle.cs_flush.specs.Flushes.{IsRising};
ghost use Rattle.cs_inode.specs.Inodes.{AreApart};
ghost use Rattle.cs_inode.specs.Reports.{AreReports, file_report, first_report, snap_report};

use cs_capsnap::CapSnaps;
use cs_flush::{FlushReport, FlushReportList, Sent};
use cs_ids::{FileMeta, Ino, Memory, Seq, Tid};
use std::alloc::Global;

// The unacknowledged flushes of a file and those of its cap snaps, together in the order of their
// numbers, no two of which are equal.
pub(crate) fn merged(
    alloc: Global,
    ino: Ino,
    files: &[Sent],
    snaps: &CapSnaps,
) -> Result<FlushReportList, Memory>
    requires rising { IsRising files.now }
    requires apart { AreApart files.now snaps.now }
    ensures { IfOk result (AreReports ino files.now (unacked snaps.now)) }
{
    let mut reports = FlushReportList::new(alloc);
    let mut files_done = 0;
    while let Some(report) = first_report(
        ino,
        files.get(files_done),
        snaps.unacked(reports.len() - files_done),
    ) {
        if !report.snap {
            files_done += 1;
        }
        reports.push(report)?;
    }
    Ok(reports)
}

// The one of the lesser number, of the next flush of a file and the next one of a cap snap.
fn first_report(
    ino: Ino,
    file: Option<&Sent>,
    snap: Option<(Tid, Seq, FileMeta)>,
) -> Option<FlushReport>
    ensures { result ≡ first_report ino (option_copied file.entry) snap }
{
    match (file, snap) {
        (None, None) => None,
        (Some(sent), None) => Some(file_report(ino, sent)),
        (None, Some(flush)) => Some(snap_report(ino, flush)),
        (Some(sent), Some(flush)) => {
            if flush.0 < sent.tid {
                Some(snap_report(ino, flush))
            } else {
                Some(file_report(ino, sent))
            }
        }
    }
}

fn file_report(ino: Ino, sent: &Sent) -> FlushReport
    ensures { result ≡ file_report ino sent.now }
{
    FlushReport {
        ino,
        sent: *sent,
        snap: false,
    }
}

fn snap_report(ino: Ino, flush: (Tid, Seq, FileMeta)) -> FlushReport
    ensures { result ≡ snap_report ino flush }
{
    let (tid, follows, meta) = flush;
    FlushReport {
        ino,
        sent: Sent { tid, follows, meta },
        snap: true,
    }
}
