// The settings of a set-up, in their order (RULES, The legal record and Class 2).
ghost use Rattle.std.specs.Prelude.{◌≡◌};
ghost use Rattle.record.specs.OutOfRange.{setting_position};

use crate::types::Setting;

impl Setting {
    /// All of them, in the order in which set-up tests them.
    pub const IN_ORDER: [Setting; 12] = [
        Setting::Name,
        Setting::Maker,
        Setting::Model,
        Setting::Other,
        Setting::Password,
        Setting::Inputs,
        Setting::Lamps,
        Setting::WarmUp,
        Setting::Cooling,
        Setting::Serial,
        Setting::Version,
        Setting::Names,
    ];

    /// Its place in that order, from 1 on: the number by which a host is told of it.
    pub fn place(self) -> u32
        ensures { result ≡ setting_position self }
    {
        match self {
            Setting::Name => 1,
            Setting::Maker => 2,
            Setting::Model => 3,
            Setting::Other => 4,
            Setting::Password => 5,
            Setting::Inputs => 6,
            Setting::Lamps => 7,
            Setting::WarmUp => 8,
            Setting::Cooling => 9,
            Setting::Serial => 10,
            Setting::Version => 11,
            Setting::Names => 12,
        }
    }
}
