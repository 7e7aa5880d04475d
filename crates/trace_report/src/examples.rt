//! Worked examples, computed by the checker from the definitions of the texts.
//!
//! The expected texts are in `specs/Examples.antt`, and the entries of the first in `stations`. The first two use the
//! small model of `net_model`. The contract of each function is a theorem; there is nothing to run.
ghost use Rattle.std.specs.Prelude.{◌≡◌, [], codes};
ghost use Rattle.net_model.specs.Examples.{small};
ghost use Rattle.stations.specs.Examples.{at, job};
ghost use Rattle.stations.specs.Examples.OneDesk.{one_desk_trace};
ghost use Rattle.trace_report.specs.Examples.{one_desk_text, figures_alone, alone_text, figures_of_two, text_of_two};
ghost use Rattle.trace_report.specs.Examples.{second_class};
ghost use Rattle.trace_report.specs.TraceText.{trace_text, entry_line};
ghost use Rattle.trace_report.specs.ReportText.{report_text};
ghost use Rattle.sim_base.specs.declared.entry.Line.TheVariants.{Sink};

/// The trace of two jobs at a desk that serves one at a time.
pub fn one_job_at_a_time()
    ensures trace { trace_text small (codes "base") one_desk_trace ≡ one_desk_text }
    ensures report { report_text small figures_alone ≡ alone_text }
{}

/// The report of two clones.
pub fn report_of_two_branches()
    ensures { report_text small figures_of_two ≡ text_of_two }
{}

/// In format 2 a job is written with its class. The text of a clone that handled nothing is the head only.
pub fn jobs_with_classes()
    ensures class { entry_line second_class (at 5 2 1 1 (job 1 0 3) (Sink 1 2))
        ≡ codes "5 out low 1 job low.0:2 got=1 stay=2\n" }
    ensures nothing { trace_text second_class (codes "base") [] ≡ codes "clone base\n" }
{}
