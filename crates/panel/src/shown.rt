// What is shown of a projector: the power, input and lamps of its last replies.
ghost use Rattle.std.specs.Prelude.{◌≡◌, ◌≤◌, length};
ghost use Rattle.pjlink.specs.Said.{power_is, chosen_is, lamps_are};
ghost use Rattle.pjlink.specs.Carried.{lamps_carried, said_by};
ghost use Rattle.panel.specs.Entries.{shown_of, nothing_shown};
ghost use Rattle.panel.specs.Showing.{showing};
ghost use Rattle.panel.specs.Stepping.{with_shown};

use crate::types::PanelEntry;
use codes::lists::FlatLamps;
use codes::readings;
use pjlink::answer::{Answer, Reply};
use text::flag;
use words::input::Input;
use words::lamp::{LAMPS_MOST, LampHours};
use words::power::PowerStatus;

impl PanelEntry {
    /// Makes all readings unknown.
    pub(crate) fn show_nothing(&mut self)
        ensures { self.new ≡ with_shown self.old nothing_shown }
    {
        self.power_known = 0;
        self.input_known = 0;
        self.lamps_known = 0;
        self.power = 0;
        self.input_type = 0;
        self.input_number = 0;
        self.lamp_count = 0;
        self.hours = [0; LAMPS_MOST];
        self.lit = [0; LAMPS_MOST];
    }

    fn show_power(&mut self, power: PowerStatus)
        ensures { self.new ≡ with_shown self.old (showing (shown_of self.old) (power_is power)) }
    {
        self.power_known = 1;
        self.power = readings::power_number(power);
    }

    fn show_input(&mut self, input: Input)
        ensures { self.new ≡ with_shown self.old (showing (shown_of self.old) (chosen_is input)) }
    {
        self.input_known = 1;
        self.input_type = readings::source_number(input.source);
        self.input_number = input.number;
    }

    fn show_lamps(&mut self, lamps: &[LampHours])
        requires { length lamps.now ≤ lamps_carried }
        ensures { self.new ≡ with_shown self.old (showing (shown_of self.old) (lamps_are lamps.now)) }
    {
        let FlatLamps { count, hours, lit } = FlatLamps::of(lamps);
        self.lamps_known = 1;
        self.lamp_count = count;
        self.hours = hours;
        self.lit = flag::flags(&lit);
    }

    /// Shows the reading of an accepted reply: a power, an input or lamps. Any other reply changes nothing.
    pub(crate) fn show(&mut self, reply: &Reply<'_>)
        ensures { self.new ≡ with_shown self.old (showing (shown_of self.old) (said_by reply.now)) }
    {
        match reply {
            Ok(Answer::Power(power)) => self.show_power(*power),
            Ok(Answer::Input(input)) => self.show_input(*input),
            Ok(Answer::Lamps(lamps)) => self.show_lamps(lamps.as_slice()),
            _ => {}
        }
    }
}
