// What holds of tests beside the call that judges.
ghost use Rattle.verdict.specs.Promises.{BeginningsPass};

// Whoever passes tests passes their beginnings, so a test that is the beginning of another need not be pressed by itself.
pub fn beginnings_pass()
    ensures { BeginningsPass }
{}
