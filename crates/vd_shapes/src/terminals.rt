//! The terminals of both grammars: the kinds of tokens whose texts change, the marks, and the reserved words.

use vd_gram::Symbol;

pub const NAME: Symbol = 0;

pub const NUMBER: Symbol = 1;

pub const LETTER: Symbol = 2;

pub const QUOTED: Symbol = 3;

pub const BITS: Symbol = 4;

pub const JOIN: Symbol = 5;

pub const TICK: Symbol = 6;

pub const OPEN: Symbol = 7;

pub const CLOSE: Symbol = 8;

pub const TIMES: Symbol = 9;

pub const PLUS: Symbol = 10;

pub const COMMA: Symbol = 11;

pub const MINUS: Symbol = 12;

pub const DOT: Symbol = 13;

pub const OVER: Symbol = 14;

pub const COLON: Symbol = 15;

pub const SEMICOLON: Symbol = 16;

pub const LESS: Symbol = 17;

pub const EQUAL: Symbol = 18;

pub const GREATER: Symbol = 19;

pub const BAR: Symbol = 20;

pub const GIVES: Symbol = 21;

pub const POWER: Symbol = 22;

pub const BECOMES: Symbol = 23;

pub const UNEQUAL: Symbol = 24;

pub const AT_LEAST: Symbol = 25;

pub const ARROW: Symbol = 26;

pub const BOX: Symbol = 27;

pub const ASK: Symbol = 28;

pub const CONDITION: Symbol = 29;

pub const ASK_EQUAL: Symbol = 30;

pub const ASK_UNEQUAL: Symbol = 31;

pub const ASK_LESS: Symbol = 32;

pub const ASK_AT_MOST: Symbol = 33;

pub const ASK_GREATER: Symbol = 34;

pub const ASK_AT_LEAST: Symbol = 35;

pub const WORD_ABS: Symbol = 36;

pub const WORD_ACCESS: Symbol = 37;

pub const WORD_AFTER: Symbol = 38;

pub const WORD_ALIAS: Symbol = 39;

pub const WORD_ALL: Symbol = 40;

pub const WORD_AND: Symbol = 41;

pub const WORD_ARCHITECTURE: Symbol = 42;

pub const WORD_ARRAY: Symbol = 43;

pub const WORD_ASSERT: Symbol = 44;

pub const WORD_ATTRIBUTE: Symbol = 45;

pub const WORD_BEGIN: Symbol = 46;

pub const WORD_BLOCK: Symbol = 47;

pub const WORD_BODY: Symbol = 48;

pub const WORD_BUFFER: Symbol = 49;

pub const WORD_BUS: Symbol = 50;

pub const WORD_CASE: Symbol = 51;

pub const WORD_COMPONENT: Symbol = 52;

pub const WORD_CONFIGURATION: Symbol = 53;

pub const WORD_CONSTANT: Symbol = 54;

pub const WORD_DISCONNECT: Symbol = 55;

pub const WORD_DOWNTO: Symbol = 56;

pub const WORD_ELSE: Symbol = 57;

pub const WORD_ELSIF: Symbol = 58;

pub const WORD_END: Symbol = 59;

pub const WORD_ENTITY: Symbol = 60;

pub const WORD_EXIT: Symbol = 61;

pub const WORD_FILE: Symbol = 62;

pub const WORD_FOR: Symbol = 63;

pub const WORD_FUNCTION: Symbol = 64;

pub const WORD_GENERATE: Symbol = 65;

pub const WORD_GENERIC: Symbol = 66;

pub const WORD_GROUP: Symbol = 67;

pub const WORD_GUARDED: Symbol = 68;

pub const WORD_IF: Symbol = 69;

pub const WORD_IMPURE: Symbol = 70;

pub const WORD_IN: Symbol = 71;

pub const WORD_INERTIAL: Symbol = 72;

pub const WORD_INOUT: Symbol = 73;

pub const WORD_IS: Symbol = 74;

pub const WORD_LABEL: Symbol = 75;

pub const WORD_LIBRARY: Symbol = 76;

pub const WORD_LINKAGE: Symbol = 77;

pub const WORD_LITERAL: Symbol = 78;

pub const WORD_LOOP: Symbol = 79;

pub const WORD_MAP: Symbol = 80;

pub const WORD_MOD: Symbol = 81;

pub const WORD_NAND: Symbol = 82;

pub const WORD_NEW: Symbol = 83;

pub const WORD_NEXT: Symbol = 84;

pub const WORD_NOR: Symbol = 85;

pub const WORD_NOT: Symbol = 86;

pub const WORD_NULL: Symbol = 87;

pub const WORD_OF: Symbol = 88;

pub const WORD_ON: Symbol = 89;

pub const WORD_OPEN: Symbol = 90;

pub const WORD_OR: Symbol = 91;

pub const WORD_OTHERS: Symbol = 92;

pub const WORD_OUT: Symbol = 93;

pub const WORD_PACKAGE: Symbol = 94;

pub const WORD_PORT: Symbol = 95;

pub const WORD_POSTPONED: Symbol = 96;

pub const WORD_PROCEDURE: Symbol = 97;

pub const WORD_PROCESS: Symbol = 98;

pub const WORD_PURE: Symbol = 99;

pub const WORD_RANGE: Symbol = 100;

pub const WORD_RECORD: Symbol = 101;

pub const WORD_REGISTER: Symbol = 102;

pub const WORD_REJECT: Symbol = 103;

pub const WORD_REM: Symbol = 104;

pub const WORD_REPORT: Symbol = 105;

pub const WORD_RETURN: Symbol = 106;

pub const WORD_ROL: Symbol = 107;

pub const WORD_ROR: Symbol = 108;

pub const WORD_SELECT: Symbol = 109;

pub const WORD_SEVERITY: Symbol = 110;

pub const WORD_SHARED: Symbol = 111;

pub const WORD_SIGNAL: Symbol = 112;

pub const WORD_SLA: Symbol = 113;

pub const WORD_SLL: Symbol = 114;

pub const WORD_SRA: Symbol = 115;

pub const WORD_SRL: Symbol = 116;

pub const WORD_SUBTYPE: Symbol = 117;

pub const WORD_THEN: Symbol = 118;

pub const WORD_TO: Symbol = 119;

pub const WORD_TRANSPORT: Symbol = 120;

pub const WORD_TYPE: Symbol = 121;

pub const WORD_UNAFFECTED: Symbol = 122;

pub const WORD_UNITS: Symbol = 123;

pub const WORD_UNTIL: Symbol = 124;

pub const WORD_USE: Symbol = 125;

pub const WORD_VARIABLE: Symbol = 126;

pub const WORD_WAIT: Symbol = 127;

pub const WORD_WHEN: Symbol = 128;

pub const WORD_WHILE: Symbol = 129;

pub const WORD_WITH: Symbol = 130;

pub const WORD_XNOR: Symbol = 131;

pub const WORD_XOR: Symbol = 132;

pub const WORD_ASSUME: Symbol = 133;

pub const WORD_CONTEXT: Symbol = 134;

pub const WORD_COVER: Symbol = 135;

pub const WORD_DEFAULT: Symbol = 136;

pub const WORD_FAIRNESS: Symbol = 137;

pub const WORD_FORCE: Symbol = 138;

pub const WORD_PARAMETER: Symbol = 139;

pub const WORD_PRIVATE: Symbol = 140;

pub const WORD_PROPERTY: Symbol = 141;

pub const WORD_PROTECTED: Symbol = 142;

pub const WORD_RELEASE: Symbol = 143;

pub const WORD_RESTRICT: Symbol = 144;

pub const WORD_SEQUENCE: Symbol = 145;

pub const WORD_STRONG: Symbol = 146;

pub const WORD_VIEW: Symbol = 147;

pub const WORD_VMODE: Symbol = 148;

pub const WORD_VPROP: Symbol = 149;

pub const WORD_VUNIT: Symbol = 150;

/// How many terminals there are.
pub const TERMINALS: Symbol = 151;
