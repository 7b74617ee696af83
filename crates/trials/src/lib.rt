// Sheets tried by hand, with what comes of them.
// The trials stand in specs/, and here is only the call whose contract says that they come true.
#![tactic(auto)]

ghost use Rattle.std.specs.Prelude.{◌≡◌, length};
ghost use Rattle.trials.specs.Trials.{trial_list, AllComeTrue};

// How many trials there are. Each of them comes true.
pub fn trials() -> usize
    ensures count { result ≡ length trial_list }
    ensures come_true { AllComeTrue }
{
    9
}
