//! The top call of the program.
#![tactic(auto)]

mod laws;
mod top;

pub use command_line::{Command, Settings, SettingsFault, settings};
pub use laws::{
    answers_are_whole, deliveries_go_in_order, disk_faults_are_told, door_faults_are_counted,
    init_makes_the_journal, inits_go_on, lives_go_on, made_journals_begin_soundly,
    notices_tell_of_what_stands, one_line_is_put, sound_jobs_make_sound_pairs,
};
pub use top::run;
pub use vnfm_commands::{Ending, Failure, Report};
