//! The nonterminals of the grammar of revision 2019.

use vd_gram::Symbol;

pub(crate) const N_FILE: Symbol = 151;

pub(crate) const N_UNITS: Symbol = 152;

pub(crate) const N_UNIT: Symbol = 153;

pub(crate) const N_CONTEXT: Symbol = 154;

pub(crate) const N_CLAUSES: Symbol = 155;

pub(crate) const N_CLAUSE: Symbol = 156;

pub(crate) const N_LIB: Symbol = 157;

pub(crate) const N_USE: Symbol = 158;

pub(crate) const N_SNAMES: Symbol = 159;

pub(crate) const N_MAIN: Symbol = 160;

pub(crate) const N_CTX: Symbol = 161;

pub(crate) const N_REFERENCE: Symbol = 162;

pub(crate) const N_CTXITEMS: Symbol = 163;

pub(crate) const N_CTXLIST: Symbol = 164;

pub(crate) const N_CTXITEM: Symbol = 165;

pub(crate) const N_CTXCLOSING: Symbol = 166;

pub(crate) const N_CTXWORD: Symbol = 167;

pub(crate) const N_IDS: Symbol = 168;

pub(crate) const N_IDTAIL: Symbol = 169;

pub(crate) const N_IDLIST: Symbol = 170;

pub(crate) const N_CLOSINGNAME: Symbol = 171;

pub(crate) const N_SNAME: Symbol = 172;

pub(crate) const N_DOTS: Symbol = 173;

pub(crate) const N_SUFFIX: Symbol = 174;

pub(crate) const N_ENTITY: Symbol = 175;

pub(crate) const N_GENSEND: Symbol = 176;

pub(crate) const N_PORTSEND: Symbol = 177;

pub(crate) const N_ENTCLOSING: Symbol = 178;

pub(crate) const N_ENTWORD: Symbol = 179;

pub(crate) const N_PORTS: Symbol = 180;

pub(crate) const N_MOREPORTS: Symbol = 181;

pub(crate) const N_PORT: Symbol = 182;

pub(crate) const N_SIGWORD: Symbol = 183;

pub(crate) const N_PORTKIND: Symbol = 184;

pub(crate) const N_MODE: Symbol = 185;

pub(crate) const N_DEFAULT: Symbol = 186;

pub(crate) const N_CONVERSE: Symbol = 187;

pub(crate) const N_OFSUBTY: Symbol = 188;

pub(crate) const N_GENS: Symbol = 189;

pub(crate) const N_GENR: Symbol = 190;

pub(crate) const N_MOREGENS: Symbol = 191;

pub(crate) const N_GEN: Symbol = 192;

pub(crate) const N_CONSTWORD: Symbol = 193;

pub(crate) const N_INWORD: Symbol = 194;

pub(crate) const N_PUREWORD: Symbol = 195;

pub(crate) const N_GENPARAMS: Symbol = 196;

pub(crate) const N_BOX: Symbol = 197;

pub(crate) const N_PARAMS: Symbol = 198;

pub(crate) const N_PARS: Symbol = 199;

pub(crate) const N_MOREPARS: Symbol = 200;

pub(crate) const N_PAR: Symbol = 201;

pub(crate) const N_DESIG: Symbol = 202;

pub(crate) const N_SUBTY: Symbol = 203;

pub(crate) const N_CONSTRAINT: Symbol = 204;

pub(crate) const N_ARCH: Symbol = 205;

pub(crate) const N_DECLPART: Symbol = 206;

pub(crate) const N_DECLS: Symbol = 207;

pub(crate) const N_CPART: Symbol = 208;

pub(crate) const N_CSTMTS: Symbol = 209;

pub(crate) const N_ARCHCLOSING: Symbol = 210;

pub(crate) const N_ARCHWORD: Symbol = 211;

pub(crate) const N_PACK: Symbol = 212;

pub(crate) const N_BODYCLOSING: Symbol = 213;

pub(crate) const N_BODYWORD: Symbol = 214;

pub(crate) const N_PACK2: Symbol = 215;

pub(crate) const N_PACKCLOSING: Symbol = 216;

pub(crate) const N_PACKWORD: Symbol = 217;

pub(crate) const N_GMAPOPT: Symbol = 218;

pub(crate) const N_GMAP: Symbol = 219;

pub(crate) const N_DECL: Symbol = 220;

pub(crate) const N_VIEWPART: Symbol = 221;

pub(crate) const N_VIEWITEMS: Symbol = 222;

pub(crate) const N_VIEWITEM: Symbol = 223;

pub(crate) const N_VMODE: Symbol = 224;

pub(crate) const N_TDEF: Symbol = 225;

pub(crate) const N_LITS: Symbol = 226;

pub(crate) const N_LIT: Symbol = 227;

pub(crate) const N_INDEX: Symbol = 228;

pub(crate) const N_AIDX: Symbol = 229;

pub(crate) const N_AIDX2: Symbol = 230;

pub(crate) const N_BOUNDS: Symbol = 231;

pub(crate) const N_BOUNDSTAIL: Symbol = 232;

pub(crate) const N_FIELDS: Symbol = 233;

pub(crate) const N_MOREFIELDS: Symbol = 234;

pub(crate) const N_FIELD: Symbol = 235;

pub(crate) const N_FN: Symbol = 236;

pub(crate) const N_FNGENS: Symbol = 237;

pub(crate) const N_PARWORD: Symbol = 238;

pub(crate) const N_FNPARAMS: Symbol = 239;

pub(crate) const N_FBODY: Symbol = 240;

pub(crate) const N_FNCLOSING: Symbol = 241;

pub(crate) const N_FNWORD: Symbol = 242;

pub(crate) const N_CLOSINGDESIG: Symbol = 243;

pub(crate) const N_SPART: Symbol = 244;

pub(crate) const N_SSTMTS: Symbol = 245;

pub(crate) const N_SSTMT: Symbol = 246;

pub(crate) const N_SID: Symbol = 247;

pub(crate) const N_SLABELLED: Symbol = 248;

pub(crate) const N_SINNER: Symbol = 249;

pub(crate) const N_TARGET: Symbol = 250;

pub(crate) const N_ASG: Symbol = 251;

pub(crate) const N_DELAY: Symbol = 252;

pub(crate) const N_WAVE: Symbol = 253;

pub(crate) const N_AFTER: Symbol = 254;

pub(crate) const N_CW: Symbol = 255;

pub(crate) const N_CWTAIL: Symbol = 256;

pub(crate) const N_CWELSE: Symbol = 257;

pub(crate) const N_VW: Symbol = 258;

pub(crate) const N_VWTAIL: Symbol = 259;

pub(crate) const N_VWELSE: Symbol = 260;

pub(crate) const N_RW: Symbol = 261;

pub(crate) const N_RWTAIL: Symbol = 262;

pub(crate) const N_SUN: Symbol = 263;

pub(crate) const N_SELECTED: Symbol = 264;

pub(crate) const N_ELSIFS: Symbol = 265;

pub(crate) const N_ELSIFLIST: Symbol = 266;

pub(crate) const N_ELSIF: Symbol = 267;

pub(crate) const N_ELSE: Symbol = 268;

pub(crate) const N_MATCHING: Symbol = 269;

pub(crate) const N_CASES: Symbol = 270;

pub(crate) const N_CASELIST: Symbol = 271;

pub(crate) const N_CASE: Symbol = 272;

pub(crate) const N_LOOP: Symbol = 273;

pub(crate) const N_WAITON: Symbol = 274;

pub(crate) const N_NAMES: Symbol = 275;

pub(crate) const N_WAITUNTIL: Symbol = 276;

pub(crate) const N_WAITFOR: Symbol = 277;

pub(crate) const N_WHENCOND: Symbol = 278;

pub(crate) const N_ASSERT: Symbol = 279;

pub(crate) const N_REPORTED: Symbol = 280;

pub(crate) const N_SEVERITY: Symbol = 281;

pub(crate) const N_SWS: Symbol = 282;

pub(crate) const N_MORESWS: Symbol = 283;

pub(crate) const N_SW: Symbol = 284;

pub(crate) const N_SVS: Symbol = 285;

pub(crate) const N_MORESVS: Symbol = 286;

pub(crate) const N_SV: Symbol = 287;

pub(crate) const N_CSTMT: Symbol = 288;

pub(crate) const N_CID: Symbol = 289;

pub(crate) const N_CLABELLED: Symbol = 290;

pub(crate) const N_CINNER: Symbol = 291;

pub(crate) const N_CASG: Symbol = 292;

pub(crate) const N_CUN: Symbol = 293;

pub(crate) const N_SENSITIVITY: Symbol = 294;

pub(crate) const N_SENSITIVE: Symbol = 295;

pub(crate) const N_ISWORD: Symbol = 296;

pub(crate) const N_INST: Symbol = 297;

pub(crate) const N_ARCHNAME: Symbol = 298;

pub(crate) const N_PMAPOPT: Symbol = 299;

pub(crate) const N_GEN1: Symbol = 300;

pub(crate) const N_GELSIFS: Symbol = 301;

pub(crate) const N_GELSIFLIST: Symbol = 302;

pub(crate) const N_GELSIF: Symbol = 303;

pub(crate) const N_GELSE: Symbol = 304;

pub(crate) const N_GCASES: Symbol = 305;

pub(crate) const N_GCASELIST: Symbol = 306;

pub(crate) const N_GCASE: Symbol = 307;

pub(crate) const N_GBODY: Symbol = 308;

pub(crate) const N_GDECLS: Symbol = 309;

pub(crate) const N_GEND: Symbol = 310;

pub(crate) const N_CHS: Symbol = 311;

pub(crate) const N_BARS: Symbol = 312;

pub(crate) const N_RNG: Symbol = 313;

pub(crate) const N_RNGTAIL: Symbol = 314;

pub(crate) const N_NAME: Symbol = 315;

pub(crate) const N_SUFS: Symbol = 316;

pub(crate) const N_SUF: Symbol = 317;

pub(crate) const N_TICK: Symbol = 318;

pub(crate) const N_ELEMS: Symbol = 319;

pub(crate) const N_ELEMTAIL: Symbol = 320;

pub(crate) const N_ELEM: Symbol = 321;

pub(crate) const N_ELEMRANGE: Symbol = 322;

pub(crate) const N_ELEMNAMED: Symbol = 323;

pub(crate) const N_ELEMCHOICES: Symbol = 324;

pub(crate) const N_ASSOC: Symbol = 325;

pub(crate) const N_ACT: Symbol = 326;

pub(crate) const N_EXPR: Symbol = 327;

pub(crate) const N_EXPRTAIL: Symbol = 328;

pub(crate) const N_ANDCHAIN: Symbol = 329;

pub(crate) const N_ANDTAIL: Symbol = 330;

pub(crate) const N_ANDITEM: Symbol = 331;

pub(crate) const N_ORCHAIN: Symbol = 332;

pub(crate) const N_ORTAIL: Symbol = 333;

pub(crate) const N_ORITEM: Symbol = 334;

pub(crate) const N_XORCHAIN: Symbol = 335;

pub(crate) const N_XORTAIL: Symbol = 336;

pub(crate) const N_XORITEM: Symbol = 337;

pub(crate) const N_XNORCHAIN: Symbol = 338;

pub(crate) const N_XNORTAIL: Symbol = 339;

pub(crate) const N_XNORITEM: Symbol = 340;

pub(crate) const N_REL: Symbol = 341;

pub(crate) const N_RELTAIL: Symbol = 342;

pub(crate) const N_SHF: Symbol = 343;

pub(crate) const N_SHFTAIL: Symbol = 344;

pub(crate) const N_SIM: Symbol = 345;

pub(crate) const N_SIGNED: Symbol = 346;

pub(crate) const N_SIMTAIL: Symbol = 347;

pub(crate) const N_ADDITEM: Symbol = 348;

pub(crate) const N_TERM: Symbol = 349;

pub(crate) const N_TERMTAIL: Symbol = 350;

pub(crate) const N_MULITEM: Symbol = 351;

pub(crate) const N_FAC: Symbol = 352;

pub(crate) const N_FACTAIL: Symbol = 353;

pub(crate) const N_PRIM: Symbol = 354;

pub(crate) const N_UNITNAME: Symbol = 355;

pub(crate) const N_QUOTEDTAIL: Symbol = 356;
