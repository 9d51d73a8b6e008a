// The promise and the laws of the model, each as the contract of a function, so that the check asks for its proof.
ghost use Rattle.model.specs.Promise.{Promise};
ghost use Rattle.model.specs.Order.{CallsInOrder, SettingInOrder, NumbersApart, ShutExactly};
ghost use Rattle.model.specs.Laws.{BeginFires, FinishFires, BackFires, BeginBack, BeginFinish, WorkingSays, IsRound, DivisorGcd, WorkDerives, WorkQuiets, WorkedImplies, WorkOnGround, LayerBegins, LayerMoves, LayerRanges, NewRows, AboveAll, SetRow, RefusedStill, CallsFire, AnswersAll, ReportIs, GrantsExact, ReportsExact, AdmitsExact, RowsAreRules, AllStanding, StateEquation};

// After every list of calls on every pile that can be built: the book agrees with the ledger, each rule in force adds up to
// its bound, a grant is refused for a rule exactly when it would break one, and reports, commits and cancels pass.
pub fn promise_stands()
    ensures { Promise }
{}

// ---- plants

// Begin is accepted exactly when no place is short; else the lowest short place is named.
pub fn begin_fires()
    ensures { BeginFires }
{}

// Finish is accepted exactly when no place goes over its limit; else the lowest such place is named.
pub fn finish_fires()
    ensures { FinishFires }
{}

// Back is accepted exactly when no place goes over its limit; else the lowest such place is named.
pub fn back_fires()
    ensures { BackFires }
{}

// Begin and then back: every place is as it was.
pub fn begin_back()
    ensures { BeginBack }
{}

// Begin and then finish: every place has moved by D.
pub fn begin_finish()
    ensures { BeginFinish }
{}

// ---- rules

// Every answer of working is a chain of rounds, and says how many: worked, 22, 20 or 21; or the rule is none that can be typed.
pub fn working_says()
    ensures { WorkingSays }
{}

// A round takes the lowest move, the lowest place and the greatest common divisor, and leaves the move's raise at 0.
pub fn is_round()
    ensures { IsRound }
{}

// The divisor of a round is the greatest common divisor.
pub fn divisor_gcd()
    ensures { DivisorGcd }
{}

// A worked rule is L' = R1 + r·L, b' = r·(b + 1) − 1, with r ≥ 1 and no entry of R1 negative.
pub fn work_derives()
    ensures { WorkDerives }
{}

// No uncontrollable move raises a worked rule.
pub fn work_quiets()
    ensures { WorkQuiets }
{}

// Tokens that keep the worked rule keep the typed one.
pub fn worked_implies()
    ensures { WorkedImplies }
{}

// Working looks at the ground part of the net alone.
pub fn work_on_ground()
    ensures { WorkOnGround }
{}

// ---- layers

// A layer's begin, finish and back are refused as below if refused below, else by its own rows.
pub fn layer_begins()
    ensures { LayerBegins }
{}

// After an accepted call of a layer the tokens are those below after it, and those of its rows after it.
pub fn layer_moves()
    ensures { LayerMoves }
{}

// Whatever its rows hold, a layer keeps the ranges of nets, if only their arcs are small.
pub fn layer_keeps()
    ensures { LayerRanges }
{}

// A layer is shut exactly where it has no rows, or there is no room for them; it then changes neither net nor tokens.
pub fn shut_exactly()
    ensures { ShutExactly }
{}

// New rows have their numbers, no arcs and no tokens.
pub fn new_rows()
    ensures { NewRows }
{}

// A new layer is one above the highest below.
pub fn above_all()
    ensures { AboveAll }
{}

// A row just set has the arcs −L'·D and adds up to the bound; every other place is as it was.
pub fn set_row()
    ensures { SetRow }
{}

// ---- ledgers and books

// Setting a row of a layer that has rows answers the first of its checks that refuses it; else it is accepted.
pub fn setting_in_order()
    ensures { SettingInOrder }
{}

// No two refusals have the same number.
pub fn numbers_apart()
    ensures { NumbersApart }
{}

// Each call answers the first of its checks that refuses it, with its whole fault, at the lowest place; else it is accepted.
pub fn calls_in_order()
    ensures { CallsInOrder }
{}

// A refused call leaves the ledger as it was.
pub fn refused_still()
    ensures { RefusedStill }
{}

// After an accepted call every place has the tokens of the firing rule: begin, finish, back, or begin and then finish.
pub fn calls_fire()
    ensures { CallsFire }
{}

// Every call of a list is answered.
pub fn answers_all()
    ensures { AnswersAll }
{}

// A report is begin and finish in one call; finish never refuses it.
pub fn report_is()
    ensures { ReportIs }
{}

// After every list: when a grant is accepted, exactly.
pub fn grants_exact()
    ensures { GrantsExact }
{}

// After every list: when a report is accepted, exactly.
pub fn reports_exact()
    ensures { ReportsExact }
{}

// After every list: when an admission is accepted, exactly.
pub fn admits_exact()
    ensures { AdmitsExact }
{}

// After every list: no two rules are at one place, and a row is in use exactly while its rule is in the book.
pub fn rows_stand()
    ensures { RowsAreRules }
{}

// After every list: the pile keeps the ranges, its limits, and the arcs −L'·D of its rules.
pub fn standing()
    ensures { AllStanding }
{}

// After every list: the marking is the first marking and D times the moves fired.
pub fn state_equation()
    ensures { StateEquation }
{}
