//! The three demands, stated over any board and proved for ours. This crate has definitions and laws only, and no code
//! to link.
#![tactic(auto)]

pub mod theorems;
pub mod wrong_boards;

ghost use Rattle.ours.specs.Board.{ours};
ghost use Rattle.demands.specs.KeepsRunning.{KeepsRunning};
ghost use Rattle.demands.specs.SpeaksPjlink.{SpeaksPjlink};
ghost use Rattle.demands.specs.CountsSeconds.{CountsSeconds};
ghost use Rattle.demands.specs.Interleaved.{Interleaved};
ghost use Rattle.demands.specs.Unheard.{Unheard};
ghost use Rattle.demands.specs.BoardSwap.{BoardSwap};
ghost use Rattle.demands.specs.ClassOne.{ClassOneAlone};
ghost use Rattle.demands.specs.Beside.{RandomKept, UnheardThroughout, UnheardAnyhow};

/// Our board keeps the demands. The function does nothing: its contract is the theorems.
pub fn ours_keeps_the_demands()
    ensures keeps_running { KeepsRunning ours }
    ensures speaks_pjlink { SpeaksPjlink ours }
    ensures counts_seconds { CountsSeconds ours }
    ensures places_stand { Interleaved ours }
    ensures outsider_unheard { Unheard ours }
    ensures survives_a_swap { BoardSwap ours }
    ensures class_1_alone { ClassOneAlone ours }
{}

/// What our board keeps beside the demands. The last: without its premise about openings, an outsider is not unheard.
pub fn ours_keeps_more()
    ensures random_number_kept { RandomKept ours }
    ensures unheard_throughout { UnheardThroughout ours }
    ensures openings_matter { UnheardAnyhow ours → ⊥ }
{}
