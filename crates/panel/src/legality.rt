// When a panel is legal, a function for each part: what is kept of a projector is in its ranges, and what is not known,
// not under way or past a count is zero.
ghost use Rattle.std.specs.List.{list_all};
ghost use Rattle.std.specs.Prelude.{◌≡◌};
ghost use Rattle.text.specs.Flags.{is_raised};
ghost use Rattle.panel.specs.Entries.{talk_of, shown_of};
ghost use Rattle.panel.specs.LegalPanels.{is_command_kept, is_talk, is_power_shown, is_input_shown, is_lamp_count};
ghost use Rattle.panel.specs.LegalPanels.{is_hours, is_hours_room, is_lit_room, shows_lamps, is_shown};
ghost use Rattle.panel.specs.LegalPanels.{is_entry, is_unused, is_panel};

use crate::talk::{GREETED_SECURED, UNGREETED};
use crate::types::{HOURS_MOST, Panel, PanelEntry, STRAYS_MOST};
use text::rooms::Blank;
use text::{flag, rooms};
use words::lamp::LAMPS_MOST;

fn are_hours(hours: &[u32]) -> bool
    ensures { result ≡ is_hours hours.now }
{
    hours.iter().all(|&h| h <= HOURS_MOST)
}

fn is_hours_room(hours: &[u32; LAMPS_MOST], count: usize) -> bool
    ensures { result ≡ is_hours_room hours.now count }
{
    rooms::used(hours, count).is_some_and(|used| are_hours(used))
}

#[tactic(auto, unfolding(crate::specs::LegalPanels::is_lit_room))]
fn is_lit_room(lit: &[u8; LAMPS_MOST], count: usize) -> bool
    ensures { result ≡ is_lit_room lit.now count }
{
    rooms::used(lit, count).is_some() && flag::are_flags(lit)
}

impl PanelEntry {
    // Returns whether a command is under way only after a greeting, and is one that the writer takes. Without one all
    // is zero.
    #[tactic(auto, unfolding(crate::specs::LegalPanels::is_command_kept))]
    fn is_command_kept(&self) -> bool
        ensures { result ≡ is_command_kept (talk_of self.now) }
    {
        if flag::is_raised(self.under_way) {
            return self.greeting != UNGREETED && self.command.command().is_some();
        }
        self.command.code == 0 && self.command.first == 0 && self.command.second == 0
    }

    // Returns whether the connection's state is legal: a greeting or none, a random number and a digest only of a
    // secured one, and a command as `is_command_kept` has it.
    #[tactic(auto, unfolding(crate::specs::LegalPanels::is_talk))]
    fn is_talk(&self) -> bool
        ensures { result ≡ is_talk (talk_of self.now) }
    {
        self.greeting <= GREETED_SECURED
            && (self.greeting == GREETED_SECURED || (self.random == 0 && self.led == 0))
            && flag::is_flag(self.led)
            && flag::is_flag(self.under_way)
            && self.is_command_kept()
    }

    #[tactic(auto, unfolding(crate::specs::LegalPanels::is_power_shown))]
    fn is_power_shown(&self) -> bool
        ensures { result ≡ is_power_shown (is_raised self.now.power_known) self.now.power }
    {
        if flag::is_raised(self.power_known) {
            return self.power <= 3;
        }
        self.power == 0
    }

    #[tactic(auto, unfolding(crate::specs::LegalPanels::is_input_shown))]
    fn is_input_shown(&self) -> bool
        ensures { result ≡ is_input_shown (is_raised self.now.input_known) self.now.input_type
            self.now.input_number }
    {
        if flag::is_raised(self.input_known) {
            return 1 <= self.input_type
                && self.input_type <= 6
                && 1 <= self.input_number
                && self.input_number <= 35;
        }
        self.input_type == 0 && self.input_number == 0
    }

    #[tactic(auto, unfolding(crate::specs::LegalPanels::is_lamp_count))]
    fn is_lamp_count(&self) -> bool
        ensures { result ≡ is_lamp_count (is_raised self.now.lamps_known) self.now.lamp_count }
    {
        if flag::is_raised(self.lamps_known) {
            return 1 <= self.lamp_count && self.lamp_count <= LAMPS_MOST;
        }
        self.lamp_count == 0
    }

    #[tactic(auto, unfolding(crate::specs::LegalPanels::shows_lamps))]
    fn is_lamps_shown(&self) -> bool
        ensures { result ≡ shows_lamps (is_raised self.now.lamps_known) self.now.lamp_count
            self.now.hours self.now.lit }
    {
        self.is_lamp_count()
            && is_hours_room(&self.hours, self.lamp_count)
            && is_lit_room(&self.lit, self.lamp_count)
    }

    // Returns whether what is shown is in its ranges.
    #[tactic(auto, unfolding(crate::specs::LegalPanels::is_shown))]
    fn is_shown(&self) -> bool
        ensures { result ≡ is_shown (shown_of self.now) }
    {
        self.is_power_shown()
            && self.is_input_shown()
            && self.is_lamps_shown()
            && flag::is_flag(self.power_known)
            && flag::is_flag(self.input_known)
            && flag::is_flag(self.lamps_known)
    }

    /// Returns whether the entry is legal.
    #[tactic(auto, unfolding(crate::specs::LegalPanels::is_entry))]
    pub fn is_legal(&self) -> bool
        ensures { result ≡ is_entry self.now }
    {
        self.password.is_legal() && self.is_talk() && self.is_shown() && self.strays <= STRAYS_MOST
    }
}

// A legal entry is blank if nothing is kept in it.
impl Blank for PanelEntry {
    ghost blank = { is_unused };

    #[tactic(auto, unfolding(crate::specs::LegalPanels::is_unused))]
    fn is_blank(&self) -> bool {
        self.password.len == 0
            && self.greeting == UNGREETED
            && self.power_known == 0
            && self.input_known == 0
            && self.lamps_known == 0
            && self.strays == 0
    }
}

fn are_legal(entries: &[PanelEntry]) -> bool
    ensures { result ≡ list_all is_entry entries.now }
{
    entries.iter().all(|e| e.is_legal())
}

impl Panel {
    /// Returns whether the panel is legal.
    #[tactic(auto, unfolding(crate::specs::LegalPanels::is_panel))]
    pub fn is_legal(&self) -> bool
        ensures { result ≡ is_panel self.now }
    {
        rooms::used(&self.entries, self.count).is_some() && are_legal(&self.entries)
    }
}
