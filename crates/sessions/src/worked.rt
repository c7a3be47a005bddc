ghost use Rattle.sessions.specs.Worked.{Amounts, Drawings, Trees, Scripts, Lines};

// Worked values of the definitions come out as the rules say. Nothing is left to run, so the function is empty.
pub fn worked_values_stand()
    ensures amounts { Amounts }
    ensures drawings { Drawings }
    ensures trees { Trees }
    ensures scripts { Scripts }
    ensures lines { Lines }
{}
