// What holds of survivors beside the call that writes one.
ghost use Rattle.survivor.specs.Promises.{NoTestsSuffice};

// For any machine and any tests there is a machine that passes them and is not equivalent.
pub fn no_tests_suffice()
    ensures { NoTestsSuffice }
{}
