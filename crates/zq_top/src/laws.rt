ghost use Rattle.zq_top.specs.Examples.{FaultsWork};

/// Worked examples of what is said of a script that is none.
pub fn faults_work()
    ensures { FaultsWork }
{}
