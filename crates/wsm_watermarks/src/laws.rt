//! What holds of watermarks by agreement of clocks. The contract of each function is the law; a call of
//! it does nothing.

ghost use Rattle.std.specs.Prelude.{◌<◌, ◌≡◌, ◌≤ℤ◌, ◌∷◌, ℕ, List, Option, pos};
ghost use Rattle.wsm_record.specs.declared.event.Value.{Value};
ghost use Rattle.wsm_record.specs.Schema.{Declared, source_count};
ghost use Rattle.wsm_windows.specs.declared.window.Shape.{Shape};
ghost use Rattle.wsm_windows.specs.Windows.{IsShape};
ghost use Rattle.wsm_admission.specs.declared.clock.Clock.{Clock};
ghost use Rattle.wsm_watermarks.specs.declared.rule.Rule.{Rule};
ghost use Rattle.wsm_watermarks.specs.declared.stamp.Stamp.{Stamp};
ghost use Rattle.wsm_watermarks.specs.declared.held.Timed.{Timed};
ghost use Rattle.wsm_watermarks.specs.Held.{AreRising, Coming, KeepsRows, WaitsInTime, comings};
ghost use Rattle.wsm_watermarks.specs.Laws.{IsPlain, Progresses, Rises, StaysBehind, Tolerates};
ghost use Rattle.wsm_watermarks.specs.Served.{IsNeverLate, VerdictsInTime};

/// While fewer clocks speak by a wrong stamp than have to agree, the watermark stays behind the right
/// stamps by the bound, or where it began. Which stamps are wrong, and whose they are, is of no account.
pub fn tolerates()
    ensures { (rule : Rule) → Tolerates rule }
{}

/// Where as many clocks as have to agree speak of a time, or a later one, the watermark is at least the
/// one that follows that time. It never falls, and each that is told is greater than all before it.
pub fn goes_on()
    ensures progress { (rule : Rule) → 0 < rule.agree → 0 < rule.step → Progresses rule }
    ensures rises { (rule : Rule) (past : List Stamp) (s : Stamp) → Rises rule past s }
{}

/// Where one clock is enough, the watermark follows the latest time so far.
pub fn is_plain_for_one()
    ensures { (rule : Rule) → rule.agree ≡ 1 → 0 < rule.forget → 0 < rule.step → IsPlain rule }
{}

/// A record that is at most the bound behind the right stamps so far is never late by such watermarks,
/// where it isn't late by where they begin: the watermark isn't past its time, so no query of one source
/// refuses it as late, whatever its windows and however it counts lateness.
pub fn never_late()
    ensures mark { (rule : Rule) → 0 < rule.agree → StaysBehind rule }
    ensures verdict { (rule : Rule) (c : Clock) (shape : Shape) (declared : Declared)
        → 0 < rule.agree → source_count declared ≡ 1 → IsShape shape → pos 0 ≤ℤ c.lateness → IsNeverLate rule c shape declared }
{}

/// Each row is handed on once, or waits, however many come: no more wait than there is room for, and
/// those that needn't wait keep their order. Each row that waited has a watermark in front that isn't
/// past its time, nor further behind it than a row may be, or than the bound and a step; none waits that
/// may pass.
pub fn keeps_rows<T>()
    ensures rows { (rule : Rule) (ahead room : ℕ) (cs : List (Coming T)) → KeepsRows rule ahead room cs }
    ensures waits { (rule : Rule) → 0 < rule.step → (ahead room : ℕ) (cs : List (Coming T)) (c : Coming T)
        → AreRising rule (c ∷ cs) → WaitsInTime rule ahead room cs c }
    ensures rising { (rule : Rule) (rows : List (ℕ × Timed T)) → AreRising rule (comings rule rows) }
{}

/// Rows that go in time are neither late nor too far ahead for a query of one source whose SKEW is as
/// much as they may be ahead.
pub fn waits_in_time<T>()
    ensures { (key : T → Option ℕ) (values : T → List Value) (c : Clock) (shape : Shape) (declared : Declared)
        → source_count declared ≡ 1 → IsShape shape → pos 0 ≤ℤ c.lateness → VerdictsInTime key values c shape declared }
{}
