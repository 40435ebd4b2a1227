ghost use Rattle.context_laws.specs.Bodies.{AreAsAsked};
ghost use Rattle.context_laws.specs.Classes.{IsByTable};
ghost use Rattle.context_laws.specs.Deciding.{DecidesByChoice};
ghost use Rattle.context_laws.specs.Placing.{ExplainedAreRight};
ghost use Rattle.context_laws.specs.Statements.{AreStatements};

/// The history of a log takes a judged decision as possible exactly where one possible state for each role and each
/// binding makes an authorizer give it.
pub fn deciding_law()
    ensures { DecidesByChoice }
{
    rbac_timeline::deciding_law();
}

/// The first row that applies of the table of classes gives the class that the history of a log is made by.
pub fn class_law()
    ensures { IsByTable }
{}

/// The answer to a write passes the test that the history of a log is made by exactly where it is what the write's body
/// asked of the object before.
pub fn asking_law()
    ensures { AreAsAsked }
{
    request_bodies::body_law();
}

/// What the history of a log says of decisions, of answers and of bodies.
pub fn statement_law()
    ensures { AreStatements }
{
    deciding_law();
    class_law();
    asking_law();
}

/// The placement of an explained log can be written and read, isn't longer than 822,633,615 bytes, and the machine runs
/// through it.
pub fn placement_law()
    ensures { ExplainedAreRight }
{
    history_model::printed_law();
}
