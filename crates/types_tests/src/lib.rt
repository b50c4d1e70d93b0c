//! The first faults of texts, written by hand, which the definition computes.
#![tactic(auto)]

ghost use Rattle.types_tests.specs.Seen.{Hold};
ghost use Rattle.types_tests.specs.Parsed.{rows as parsed_rows};
ghost use Rattle.types_tests.specs.Trees.{HaveTrees};
ghost use Rattle.types_tests.specs.Texts00.{rows as rows_00};
ghost use Rattle.types_tests.specs.Texts01.{rows as rows_01};
ghost use Rattle.types_tests.specs.Texts02.{rows as rows_02};
ghost use Rattle.types_tests.specs.Texts03.{rows as rows_03};
ghost use Rattle.types_tests.specs.Texts04.{rows as rows_04};
ghost use Rattle.types_tests.specs.Texts05.{rows as rows_05};
ghost use Rattle.types_tests.specs.Texts06.{rows as rows_06};
ghost use Rattle.types_tests.specs.Texts07.{rows as rows_07};
ghost use Rattle.types_tests.specs.Texts08.{rows as rows_08};
ghost use Rattle.types_tests.specs.Texts09.{rows as rows_09};
ghost use Rattle.types_tests.specs.Texts10.{rows as rows_10};
ghost use Rattle.types_tests.specs.Texts11.{rows as rows_11};
ghost use Rattle.types_tests.specs.Texts12.{rows as rows_12};
ghost use Rattle.types_tests.specs.Texts13.{rows as rows_13};
ghost use Rattle.types_tests.specs.Texts14.{rows as rows_14};
ghost use Rattle.types_tests.specs.Texts15.{rows as rows_15};
ghost use Rattle.types_tests.specs.Texts16.{rows as rows_16};
ghost use Rattle.types_tests.specs.Texts17.{rows as rows_17};
ghost use Rattle.types_tests.specs.Texts18.{rows as rows_18};
ghost use Rattle.types_tests.specs.Texts19.{rows as rows_19};
ghost use Rattle.types_tests.specs.Texts20.{rows as rows_20};
ghost use Rattle.types_tests.specs.Texts21.{rows as rows_21};
ghost use Rattle.types_tests.specs.Texts22.{rows as rows_22};
ghost use Rattle.types_tests.specs.Texts23.{rows as rows_23};
ghost use Rattle.types_tests.specs.Texts24.{rows as rows_24};
ghost use Rattle.types_tests.specs.Texts25.{rows as rows_25};
ghost use Rattle.types_tests.specs.Texts26.{rows as rows_26};
ghost use Rattle.types_tests.specs.Texts27.{rows as rows_27};
ghost use Rattle.types_tests.specs.Texts28.{rows as rows_28};
ghost use Rattle.types_tests.specs.Texts29.{rows as rows_29};
ghost use Rattle.types_tests.specs.Texts30.{rows as rows_30};
ghost use Rattle.types_tests.specs.Texts31.{rows as rows_31};
ghost use Rattle.types_tests.specs.Texts32.{rows as rows_32};
ghost use Rattle.types_tests.specs.Texts33.{rows as rows_33};
ghost use Rattle.types_tests.specs.Texts34.{rows as rows_34};
ghost use Rattle.types_tests.specs.Texts35.{rows as rows_35};
ghost use Rattle.types_tests.specs.Texts36.{rows as rows_36};
ghost use Rattle.types_tests.specs.Texts37.{rows as rows_37};
ghost use Rattle.types_tests.specs.Texts38.{rows as rows_38};
ghost use Rattle.types_tests.specs.Texts39.{rows as rows_39};
ghost use Rattle.types_tests.specs.Texts40.{rows as rows_40};
ghost use Rattle.types_tests.specs.Texts41.{rows as rows_41};
ghost use Rattle.types_tests.specs.Texts42.{rows as rows_42};
ghost use Rattle.types_tests.specs.Texts43.{rows as rows_43};
ghost use Rattle.types_tests.specs.Texts44.{rows as rows_44};
ghost use Rattle.types_tests.specs.Texts45.{rows as rows_45};
ghost use Rattle.types_tests.specs.Texts46.{rows as rows_46};

/// the worked texts; 1 NoMain; 2 Duplicate; 3 UnknownName
fn texts_1()
    ensures text00 { Hold rows_00 }
    ensures text01 { Hold rows_01 }
    ensures text02 { Hold rows_02 }
    ensures text03 { Hold rows_03 }
    ensures text04 { Hold rows_04 }
    ensures text05 { Hold rows_05 }
{}

/// 3 UnknownName; 4 UnknownType; 5 VoidHere; 6 BadLength; 7 EnumRange; 8 LargeType
fn texts_2()
    ensures text06 { Hold rows_06 }
    ensures text07 { Hold rows_07 }
    ensures text08 { Hold rows_08 }
    ensures text09 { Hold rows_09 }
    ensures text10 { Hold rows_10 }
    ensures text11 { Hold rows_11 }
{}

/// 9 ManyCells; 10 NoBody; 11 NoSpec; 12 BodyNames; 13 Arity; 14 Mismatch
fn texts_3()
    ensures text12 { Hold rows_12 }
    ensures text13 { Hold rows_13 }
    ensures text14 { Hold rows_14 }
    ensures text15 { Hold rows_15 }
    ensures text16 { Hold rows_16 }
    ensures text17 { Hold rows_17 }
{}

/// 14 Mismatch; 15 NotAPlace; 16 NotAFunction
fn texts_4()
    ensures text18 { Hold rows_18 }
    ensures text19 { Hold rows_19 }
    ensures text20 { Hold rows_20 }
    ensures text21 { Hold rows_21 }
    ensures text22 { Hold rows_22 }
    ensures text23 { Hold rows_23 }
{}

/// 17 NotAValue; 18 UnknownField; 19 UnknownTransaction; 20 AcceptPlace; 21 TreturnPlace; 22 LoopPlace
fn texts_5()
    ensures text24 { Hold rows_24 }
    ensures text25 { Hold rows_25 }
    ensures text26 { Hold rows_26 }
    ensures text27 { Hold rows_27 }
    ensures text28 { Hold rows_28 }
    ensures text29 { Hold rows_29 }
{}

/// 23 LeavesAccept; 24 ValueHere; 25 NotPure; 27 NotTimed; 28 BadFormat; two rows at one token: the one of the lower number
fn texts_6()
    ensures text30 { Hold rows_30 }
    ensures text31 { Hold rows_31 }
    ensures text32 { Hold rows_32 }
    ensures text33 { Hold rows_33 }
    ensures text34 { Hold rows_34 }
    ensures text35 { Hold rows_35 }
{}

/// two rows at one token: the one of the lower number; an earlier token wins over a lower number; a declaration with a fault, and names of the whole text; a part without a type that holds no fault
fn texts_7()
    ensures text36 { Hold rows_36 }
    ensures text37 { Hold rows_37 }
    ensures text38 { Hold rows_38 }
    ensures text39 { Hold rows_39 }
    ensures text40 { Hold rows_40 }
    ensures text41 { Hold rows_41 }
{}

/// an array stands as the target of `=`; what is known beside a fault in a declaration; more of names, accepts and clauses; 26 PureTooDeep: an index adds one to the depth, so does a right operand; a row and `&&` don't
fn texts_8()
    ensures text42 { Hold rows_42 }
    ensures text43 { Hold rows_43 }
    ensures text44 { Hold rows_44 }
    ensures text45 { Hold rows_45 }
    ensures text46 { Hold rows_46 }
{}

/// Texts as tokens, with their plain trees.
fn plain_trees()
    ensures trees { HaveTrees parsed_rows }
{}

#[test]
fn first_faults() {
    texts_1();
    texts_2();
    texts_3();
    texts_4();
    texts_5();
    texts_6();
    texts_7();
    texts_8();
}

#[test]
fn trees_of_texts() {
    plain_trees();
}
