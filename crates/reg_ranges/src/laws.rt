//! Laws of the definitions. Each function does nothing; what it ensures is the law.
ghost use Rattle.reg_ranges.specs.Laws.{FaultsTellPartitions, EachValueHasOneRange, TreatmentIsOfItsRange, LeastValueIsLeast, TellsSame};
ghost use Rattle.reg_ranges.specs.Sameness.{same_policy, same_treatment, same_stream, same_track, same_rfc, same_evidence, same_range, same_table};
ghost use Rattle.reg_ranges.specs.Numbers.{ReadsDecimals};
ghost use Rattle.reg_ranges.specs.Words.{ReadsWords, policy_word, read_policy, treatment_word, read_treatment, stream_word, read_stream, track_word, read_track};

/// The word of a policy, a treatment, a stream or a track reads to it, and no other text does.
pub fn words_read_back()
    ensures policies { ReadsWords policy_word read_policy }
    ensures treatments { ReadsWords treatment_word read_treatment }
    ensures streams { ReadsWords stream_word read_stream }
    ensures tracks { ReadsWords track_word read_track }
{}

/// Ranges have no fault exactly where they are a partition.
pub fn faults_tell_partitions()
    ensures { FaultsTellPartitions }
{}

/// Each value up to the largest lies in one range of a table, and in no other.
pub fn each_value_has_one_range()
    ensures { EachValueHasOneRange }
{}

/// The treatment of a value is that of the range in which it lies. Above the largest value there is
/// none.
pub fn treatment_is_of_its_range()
    ensures { TreatmentIsOfItsRange }
{}

/// The least free value is under the policy and not taken, and each lower value under it is taken.
/// There is none only where each value under the policy is taken.
pub fn least_value_is_least()
    ensures { LeastValueIsLeast }
{}

/// The decimal text of a number of 32 bits reads to the number, and no other text does.
pub fn numbers_read_back()
    ensures { ReadsDecimals }
{}

/// The tests of sameness are true exactly of equal values.
pub fn sameness_is_equality()
    ensures policies { TellsSame same_policy }
    ensures treatments { TellsSame same_treatment }
    ensures streams { TellsSame same_stream }
    ensures tracks { TellsSame same_track }
    ensures rfcs { TellsSame same_rfc }
    ensures evidence { TellsSame same_evidence }
    ensures ranges { TellsSame same_range }
    ensures tables { TellsSame same_table }
{}
